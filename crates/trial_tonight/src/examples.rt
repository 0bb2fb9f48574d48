//! A night of two partners, and what it gives.

/// The partners and routes.
pub const SETUP: &[u8] = b"[hub]
qualifier = 'ZZ'
id = 'HUB'
code = 'HUB'
usage = 'P'

[[partner]]
name = 'ACME'
qualifier = '01'
id = 'ACME'
code = 'ACME'
element = '*'
component = '>'
repetition = '^'
terminator = '~'
cap = 2
guides = ['H850']

[[partner]]
name = 'BOLT'
qualifier = 'ZZ'
id = 'BOLT'
code = 'BOLT'
element = '|'
component = ':'
repetition = '^'
terminator = '!'
cap = 1
guides = ['H850']

[[route]]
code = 'BOLT'
to = 'BOLT'
";

/// The guide of orders.
pub const GUIDE: &[u8] = b"name = 'H850'
group = 'PO'
set = '850'
version = '005010'
nodes = [
 {seg='BEG', min=1, max=1, elements=['353 M ID 2 2', '92 M ID 2 2', '324 M AN 1 22', '328 O AN 1 30', '373 M DT 8 8']},
 {seg='PO1', min=1, max=9, elements=['350 O AN 1 20', '330 M R 1 5', '355 M ID 2 2', '212 O R 1 9']},
]
";

/// With which numbers partners begin to whom no night has sent.
pub const FIRST: &[u8] = b"version = 2

[[counter]]
partner = 'ACME'
interchange = 900
group = 900
set = 900

[[counter]]
partner = 'BOLT'
interchange = 7
group = 8
set = 9
";

/// What came in: an order from ACME to BOLT.
pub const IN: &[u8] =
    b"ISA*00*          *00*          *01*ACME           *ZZ*HUB            *260228*0900*^*00501*000000007*0*P*>~\
      GS*PO*ACME*BOLT*20260228*0900*12*X*005010~ST*850*0001~BEG*00*SA*PO100**20260228~PO1*1*5*EA*2.50~SE*4*0001~\
      GE*1*12~IEA*1*000000007~";

/// The counters with which the night begins: ACME's address was left at 42, 40 and 9.
pub const BEGUN: &[u8] = b"version = 2

[[counter]]
partner = \"ACME\"
interchange = 42
group = 40
set = 9

[[counter]]
partner = \"BOLT\"
interchange = 7
group = 8
set = 9
";

/// The files that the night gives, by their names.
pub const OUT: &[(&[u8], &[u8])] = &[
    (
        b"out/ACME.ack",
        b"ISA*00*          *00*          *ZZ*HUB            *01*ACME           *260301*1530*^*00501*000000042*0*P*>~\
          GS*FA*HUB*ACME*20260301*1530*40*X*005010X231~ST*999*0001*005010X231~AK1*PO*12*005010~AK2*850*0001~IK5*A~\
          AK9*A*1*1*1~SE*6*0001~GE*1*40~IEA*1*000000042~",
    ),
    (b"out/ACME.box", b""),
    (b"out/BOLT.ack", b""),
    (
        b"out/BOLT.box",
        b"ISA|00|          |00|          |ZZ|HUB            |ZZ|BOLT           |260301|1530|^|00501|000000007|0|P|:!\
          GS|PO|ACME|BOLT|20260301|1530|8|X|005010!ST|850|0009!BEG|00|SA|PO100||20260228!PO1|1|5|EA|2.50!SE|4|0009!\
          GE|1|8!IEA|1|000000007!",
    ),
    (
        b"out/report.txt",
        b"interchange 1 at 0 from ACME control 000000007 accepted
group PO 12 A sets 1 accepted 1
total interchanges 1 refused 0 groups 1 sets 1 accepted 1 held 0 outside 0
",
    ),
    (
        b"out/counters.toml",
        b"version = 2

[[counter]]
partner = \"ACME\"
interchange = 43
group = 41
set = 9

[[counter]]
partner = \"BOLT\"
interchange = 8
group = 9
set = 10
",
    ),
];

/// The last line of the report.
pub const TOTAL: &[u8] =
    b"total interchanges 1 refused 0 groups 1 sets 1 accepted 1 held 0 outside 0\n";

/// Where the set is.
pub const TRACK: &[u8] =
    b"interchange,offset,sender,isa13,fault,ta1,gs01,gs06,gs02,gs03,group_verdict,group_codes,st01,st02,document,\
      verdict,codes,faults,outcome,byte,segment,receiver,receiver_isa13,receiver_gs06,receiver_st02\r\n\
      1,0,ACME,000000007,,,PO,12,ACME,BOLT,A,,850,0001,PO100,A,,0,delivered,,,BOLT,000000007,8,0009\r\n";

/// What comes next for each address.
pub const LEFT: &[(&[u8], &[u8], [u32; 3])] = &[
    (b"01", b"ACME", [43, 41, 9]),
    (b"ZZ", b"BOLT", [8, 9, 10]),
];
