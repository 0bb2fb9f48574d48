//! The files of a night of two partners, and what is written of it.

/// What came in: an order from each partner to the other.
pub const TWO_PARTNERS: &[u8] =
    b"ISA*00*          *00*          *01*ACME           *ZZ*HUB            *260228*0900*^*00501*000000007*0*P*>~\
      GS*PO*ACME*BOLT*20260228*0900*12*X*005010~ST*850*0001~BEG*00*SA*PO100**20260228~PO1*1*5*EA*2.50~SE*4*0001~GE*1*12~\
      IEA*1*000000007~\
      ISA|00|          |00|          |ZZ|BOLT           |ZZ|HUB            |260228|0915|^|00501|000000003|0|P|:!\
      GS|PO|BOLT|ACME|20260228|0915|3|X|005010!ST|850|0001!BEG|05|NE|B7||20260227!PO1||1|CA!SE|4|0001!GE|1|3!\
      IEA|1|000000003!";

/// The partners and routes.
pub const SETUP: &[u8] = b"[hub]
qualifier = 'ZZ'
id = 'HUB'
code = 'HUB'
usage = 'P'

[[partner]]
name = 'ACME'
qualifier = '01'
id = 'ACME'
code = 'ACME'
element = '*'
component = '>'
repetition = '^'
terminator = '~'
cap = 2
guides = ['H850', 'H856']

[[partner]]
name = 'BOLT'
qualifier = 'ZZ'
id = 'BOLT'
code = 'BOLT'
element = '|'
component = ':'
repetition = '^'
terminator = '!'
cap = 1
guides = ['H850']

[[route]]
code = 'ACME'
to = 'ACME'

[[route]]
code = 'BOLT'
to = 'BOLT'
";

/// The counters of the first night.
pub const COUNTERS: &[u8] = b"version = 2

[[counter]]
partner = 'ACME'
interchange = 1
group = 1
set = 1

[[counter]]
partner = 'BOLT'
interchange = 1
group = 1
set = 1
";

/// The guide of orders.
pub const H850: &[u8] = b"name = 'H850'
group = 'PO'
set = '850'
version = '005010'
dictionary = ['AMT', 'CUR', 'FOB', 'PER', 'SAC']
tolerate_element = ['5']
nodes = [
 {seg='BEG', min=1, max=1, elements=['353 M ID 2 2 = 00 05 ! 01 04', '92 M ID 2 2 = NE SA', '324 M AN 1 22', '328 O AN 1 30',
  '373 M DT 8 8']},
 {seg='REF', min=0, max=12, elements=['128 M ID 2 3', '127 O AN 1 50', '352 O AN 1 80'], conditions=['R0203']},
 {seg='DTM', min=0, max=10, elements=['374 M ID 3 3', '373 O DT 8 8', '337 O TM 4 8'], conditions=['R0203']},
 {loop='N9', min=0, max=2, nodes=[
  {seg='N9', min=1, max=1, elements=['128 M ID 2 3', '127 O AN 1 50']},
  {seg='MSG', min=0, max=10, elements=['933 M AN 1 264 wide']}]},
 {loop='N1', min=0, max=2, nodes=[
  {seg='N1', min=1, max=1, elements=['98 M ID 2 3 = BT ST VN', '93 O AN 1 60 wide', '66 O ID 1 2',
  '67 O AN 2 80'], conditions=['R0203', 'P0304']},
  {seg='N3', min=0, max=2, elements=['166 M AN 1 55 wide', '166 O AN 1 55 wide']},
  {seg='N4', min=0, max=1, elements=['19 O AN 2 30 wide', '156 O ID 2 2', '116 O ID 3 15', '26 O ID 2 3']}]},
 {loop='PO1', min=1, max=99999, nodes=[
  {seg='PO1', min=1, max=1, elements=['350 O AN 1 20', '330 M R 1 5', '355 M ID 2 2 = CA EA ! DZ', '212 O R 1 9', '639 O ID 2 2',
  '235 O ID 2 2', '234 O AN 1 48'], conditions=['C0504', 'P0607']},
  {seg='PID', min=0, max=5, elements=['349 M ID 1 1 = F', '750 O ID 2 3', '559 N', '751 N', '352 O AN 1 80 wide']}]},
 {seg='CTT', min=0, max=1, elements=['354 M N0 1 6']},
]
";

/// The guide of shipments.
pub const H856: &[u8] = b"name = 'H856'
group = 'SH'
set = '856'
version = '005010'
dictionary = ['FOB', 'PER', 'PKG', 'SAC']
hl = {pairs=['/S', 'S/O', 'O/P', 'O/I', 'P/I'], sequential=true}
depends = [{kind='need', slot='HL', at=3, codes=['P'], target='MAN', element=0}]
nodes = [
 {seg='BSN', min=1, max=1, elements=['353 M ID 2 2 = 00 ! 01', '396 M AN 2 30', '373 M DT 8 8', '337 M TM 4 8', '1005 O ID 4 4']},
 {loop='HL', min=1, max=99999, nodes=[
  {seg='HL', label='HL', min=1, max=1, elements=['628 M AN 1 12', '734 O AN 1 12', '735 M ID 1 2 = I O P S ! T',
  '736 O ID 1 1 = 0 1']},
  {seg='LIN', min=0, max=1, elements=['350 O AN 1 20', '235 M ID 2 2', '234 M AN 1 48']},
  {seg='SN1', min=0, max=1, elements=['350 O AN 1 20', '382 M R 1 9', '355 M ID 2 2']},
  {seg='PRF', min=0, max=1, elements=['324 M AN 1 22']},
  {seg='TD5', min=0, max=3, elements=['133 O ID 1 2', '66 O ID 1 2', '67 O AN 2 80', '91 O ID 1 2'], conditions=['C0203']},
  {seg='REF', min=0, max=20, elements=['128 M ID 2 3', '127 O AN 1 50', '352 O AN 1 80'], conditions=['R0203']},
  {seg='MAN', label='MAN', min=0, max=10, elements=['88 M ID 1 2', '87 M AN 1 48']},
  {seg='DTM', min=0, max=10, elements=['374 M ID 3 3', '373 O DT 8 8', '337 O TM 4 8'], conditions=['R0203']},
  {loop='N1', min=0, max=5, nodes=[
   {seg='N1', min=1, max=1, elements=['98 M ID 2 3', '93 O AN 1 60 wide', '66 O ID 1 2', '67 O AN 2 80'], conditions=['R0203',
  'P0304']}]}]},
]
";

/// What ACME is answered.
pub const ACME_ACK: &[u8] =
    b"ISA*00*          *00*          *ZZ*HUB            *01*ACME           *260301*1530*^*00501*000000001*0*P*>~\
      GS*FA*HUB*ACME*20260301*1530*1*X*005010X231~ST*999*0001*005010X231~AK1*PO*12*005010~AK2*850*0001~IK5*A~AK9*A*1*1*1~\
      SE*6*0001~GE*1*1~IEA*1*000000001~";

/// What is delivered to ACME.
pub const ACME_BOX: &[u8] =
    b"ISA*00*          *00*          *ZZ*HUB            *01*ACME           *260301*1530*^*00501*000000002*0*P*>~\
      GS*PO*BOLT*ACME*20260301*1530*2*X*005010~ST*850*0001~BEG*05*NE*B7**20260227~PO1**1*CA~SE*4*0001~GE*1*2~\
      IEA*1*000000002~";

/// What BOLT is answered.
pub const BOLT_ACK: &[u8] =
    b"ISA|00|          |00|          |ZZ|HUB            |ZZ|BOLT           |260301|1530|^|00501|000000001|0|P|:!\
      GS|FA|HUB|BOLT|20260301|1530|1|X|005010X231!ST|999|0001|005010X231!AK1|PO|3|005010!AK2|850|0001!IK5|A!AK9|A|1|1|1!\
      SE|6|0001!GE|1|1!IEA|1|000000001!";

/// What is delivered to BOLT.
pub const BOLT_BOX: &[u8] =
    b"ISA|00|          |00|          |ZZ|HUB            |ZZ|BOLT           |260301|1530|^|00501|000000002|0|P|:!\
      GS|PO|ACME|BOLT|20260301|1530|2|X|005010!ST|850|0001!BEG|00|SA|PO100||20260228!PO1|1|5|EA|2.50!SE|4|0001!GE|1|2!\
      IEA|1|000000002!";

/// The report.
pub const REPORT: &[u8] = b"interchange 1 at 0 from ACME control 000000007 accepted\n\
      group PO 12 A sets 1 accepted 1\n\
      interchange 2 at 236 from BOLT control 000000003 accepted\n\
      group PO 3 A sets 1 accepted 1\n\
      total interchanges 2 refused 0 groups 2 sets 2 accepted 2 held 0 outside 0\n";

/// The report's last line.
pub const TOTAL: &[u8] =
    b"total interchanges 2 refused 0 groups 2 sets 2 accepted 2 held 0 outside 0\n";

/// The counters of the next night.
pub const NEXT: &[u8] = b"version = 2\n\
      \n\
      [[counter]]\n\
      partner = \"ACME\"\n\
      interchange = 3\n\
      group = 3\n\
      set = 2\n\
      \n\
      [[counter]]\n\
      partner = \"BOLT\"\n\
      interchange = 3\n\
      group = 3\n\
      set = 2\n";
