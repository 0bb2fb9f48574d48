//! The house guides, as `examples/guides` has them.

pub const H850: &str = r#"name = "H850"
group = "PO"
set = "850"
version = "005010"
dictionary = ["AMT", "CUR", "FOB", "PER", "SAC"]
tolerate_element = ["5"]
nodes = [
 {seg="BEG", min=1, max=1, elements=["353 M ID 2 2 = 00 05 ! 01 04", "92 M ID 2 2 = NE SA", "324 M AN 1 22", "328 O AN 1 30", "373 M DT 8 8"]},
 {seg="REF", min=0, max=12, elements=["128 M ID 2 3", "127 O AN 1 50", "352 O AN 1 80"], conditions=["R0203"]},
 {seg="DTM", min=0, max=10, elements=["374 M ID 3 3", "373 O DT 8 8", "337 O TM 4 8"], conditions=["R0203"]},
 {loop="N9", min=0, max=2, nodes=[
  {seg="N9", min=1, max=1, elements=["128 M ID 2 3", "127 O AN 1 50"]},
  {seg="MSG", min=0, max=10, elements=["933 M AN 1 264 wide"]}]},
 {loop="N1", min=0, max=2, nodes=[
  {seg="N1", min=1, max=1, elements=["98 M ID 2 3 = BT ST VN", "93 O AN 1 60 wide", "66 O ID 1 2", "67 O AN 2 80"], conditions=["R0203", "P0304"]},
  {seg="N3", min=0, max=2, elements=["166 M AN 1 55 wide", "166 O AN 1 55 wide"]},
  {seg="N4", min=0, max=1, elements=["19 O AN 2 30 wide", "156 O ID 2 2", "116 O ID 3 15", "26 O ID 2 3"]}]},
 {loop="PO1", min=1, max=99999, nodes=[
  {seg="PO1", min=1, max=1, elements=["350 O AN 1 20", "330 M R 1 5", "355 M ID 2 2 = CA EA ! DZ", "212 O R 1 9", "639 O ID 2 2", "235 O ID 2 2", "234 O AN 1 48"], conditions=["C0504", "P0607"]},
  {seg="PID", min=0, max=5, elements=["349 M ID 1 1 = F", "750 O ID 2 3", "559 N", "751 N", "352 O AN 1 80 wide"]}]},
 {seg="CTT", min=0, max=1, elements=["354 M N0 1 6"]},
]
"#;

pub const H856: &str = r#"name = "H856"
group = "SH"
set = "856"
version = "005010"
dictionary = ["FOB", "PER", "PKG", "SAC"]
hl = {pairs=["/S", "S/O", "O/P", "O/I", "P/I"], sequential=true}
depends = [{kind="need", slot="HL", at=3, codes=["P"], target="MAN", element=0}]
nodes = [
 {seg="BSN", min=1, max=1, elements=["353 M ID 2 2 = 00 ! 01", "396 M AN 2 30", "373 M DT 8 8", "337 M TM 4 8", "1005 O ID 4 4"]},
 {loop="HL", min=1, max=99999, nodes=[
  {seg="HL", label="HL", min=1, max=1, elements=["628 M AN 1 12", "734 O AN 1 12", "735 M ID 1 2 = I O P S ! T", "736 O ID 1 1 = 0 1"]},
  {seg="LIN", min=0, max=1, elements=["350 O AN 1 20", "235 M ID 2 2", "234 M AN 1 48"]},
  {seg="SN1", min=0, max=1, elements=["350 O AN 1 20", "382 M R 1 9", "355 M ID 2 2"]},
  {seg="PRF", min=0, max=1, elements=["324 M AN 1 22"]},
  {seg="TD5", min=0, max=3, elements=["133 O ID 1 2", "66 O ID 1 2", "67 O AN 2 80", "91 O ID 1 2"], conditions=["C0203"]},
  {seg="REF", min=0, max=20, elements=["128 M ID 2 3", "127 O AN 1 50", "352 O AN 1 80"], conditions=["R0203"]},
  {seg="MAN", label="MAN", min=0, max=10, elements=["88 M ID 1 2", "87 M AN 1 48"]},
  {seg="DTM", min=0, max=10, elements=["374 M ID 3 3", "373 O DT 8 8", "337 O TM 4 8"], conditions=["R0203"]},
  {loop="N1", min=0, max=5, nodes=[
   {seg="N1", min=1, max=1, elements=["98 M ID 2 3", "93 O AN 1 60 wide", "66 O ID 1 2", "67 O AN 2 80"], conditions=["R0203", "P0304"]}]}]},
]
"#;
