//! A night of three partners, and the rows of its table.

/// The partners and routes.
pub const SETUP: &[u8] = b"[hub]
qualifier = 'ZZ'
id = 'HUB'
code = 'HUB'
usage = 'P'

[[partner]]
name = 'ACME'
qualifier = '01'
id = 'ACME'
code = 'ACME'
element = '*'
component = '>'
repetition = '^'
terminator = '~'
cap = 2
guides = ['H850']

[[partner]]
name = 'BOLT'
qualifier = 'ZZ'
id = 'BOLT'
code = 'BOLT'
element = '|'
component = ':'
repetition = '^'
terminator = '!'
cap = 1
guides = ['H850']

[[partner]]
name = 'CARL'
qualifier = 'ZZ'
id = 'CARL'
code = 'CARL'
element = '*'
component = '>'
repetition = '^'
terminator = '~'
cap = 5
guides = ['H850']

[[route]]
code = 'BOLT'
to = 'BOLT'

[[route]]
code = 'BOTH'
to = ['BOLT', 'CARL']
";

/// The guide of orders.
pub const GUIDE: &[u8] = b"name = 'H850'
group = 'PO'
set = '850'
version = '005010'
nodes = [
 {seg='BEG', min=1, max=1, elements=['353 M ID 2 2', '92 M ID 2 2', '324 M AN 1 22 wide']},
]
";

/// The counters of the night before.
pub const COUNTERS: &[u8] = b"version = 2

[[counter]]
partner = 'ACME'
interchange = 5
group = 6
set = 7

[[counter]]
partner = 'BOLT'
interchange = 1
group = 1
set = 1
";

/// What came in. Of the orders to BOLT one is delivered, one has a delimiter of BOLT, one has no number, and the number of one has bytes
/// that don't print in ASCII; the order to nobody has a line end in its number; the order to two is delivered to both. Then come a group
/// of acknowledgments, and an interchange from nobody that is known.
pub const IN: &[u8] =
    b"ISA*00*          *00*          *01*ACME           *ZZ*HUB            *260228*0900*^*00501*000000007*0*P*>~\
      GS*PO*ACME*BOLT*20260228*0900*12*X*005010~ST*850*0001~BEG*00*SA*P\"1,2~SE*3*0001~ST*850*0002~BEG*00*SA*A|B~SE*3*0002~\
      ST*850*0003~BEG*00*SA~SE*3*0003~ST*850*0004~BEG*00*SA*\xc3\xa9~SE*3*0004~GE*4*12~\
      GS*PO*ACME*NONE*20260228*0900*13*X*005010~ST*850*0001~BEG*00*SA*L\r\nE~SE*3*0001~GE*1*13~\
      GS*PO*ACME*BOTH*20260228*0900*14*X*005010~ST*850*0001~BEG*00*SA*P9~SE*3*0001~GE*1*14~\
      GS*FA*ACME*HUB*20260228*0900*15*X*005010X231~ST*999*0001~AK1*PO*1~AK9*A*1*1*1~SE*4*0001~GE*1*15~IEA*4*000000007~\
      ISA*00*          *00*          *01*WILE           *ZZ*HUB            *260228*0900*^*00501*000000008*0*P*>~IEA*0*000000008~";

/// The names of the columns.
pub const NAMES: &[u8] =
    b"interchange,offset,sender,isa13,fault,ta1,gs01,gs06,gs02,gs03,group_verdict,group_codes,st01,st02,document,\
      verdict,codes,faults,outcome,byte,segment,receiver,receiver_isa13,receiver_gs06,receiver_st02\r\n";

/// The rows of the table.
pub const ROWS: &[u8] =
    b"1,0,ACME,000000007,,,PO,12,ACME,BOLT,P,,850,0001,\"P\"\"1,2\",A,,0,delivered,,,BOLT,000000001,1,0001\r\n\
      1,0,ACME,000000007,,,PO,12,ACME,BOLT,P,,850,0002,A|B,A,,0,held delimiter,|,2,BOLT,,,\r\n\
      1,0,ACME,000000007,,,PO,12,ACME,BOLT,P,,850,0003,,R,5,1,rejected,,,,,,\r\n\
      1,0,ACME,000000007,,,PO,12,ACME,BOLT,P,,850,0004,\"\xc3\xa9\",A,,0,delivered,,,BOLT,000000002,2,0002\r\n\
      1,0,ACME,000000007,,,PO,13,ACME,NONE,R,,850,0001,\"L\r\nE\",R,5,1,rejected,,,,,,\r\n\
      1,0,ACME,000000007,,,PO,14,ACME,BOTH,A,,850,0001,P9,A,,0,delivered,,,BOLT,000000003,3,0003\r\n\
      1,0,ACME,000000007,,,PO,14,ACME,BOTH,A,,850,0001,P9,A,,0,delivered,,,CARL,000000001,1,0001\r\n\
      1,0,ACME,000000007,,,FA,15,ACME,HUB,,,999,0001,,,,,listed,,,,,,\r\n\
      2,581,?,000000008,8,,,,,,,,,,,,,,refused,,,,,,\r\n";
