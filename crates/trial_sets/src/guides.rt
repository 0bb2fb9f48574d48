//! The guides that the sets are checked by.
use guide_toml::read_guide;
use guide_tree::Guide;
use std::alloc::Global;
use std::test::Fail;

/// A purchase order, of which an element that is too long is tolerated. The slots are BEG 1, REF 2, DTM 3, loop N1 4, N1 5, N3 6,
/// loop PO1 7, PO1 8, PID 9, CTT 10.
pub const ORDER: &str = r#"name = "ORDER"
group = "PO"
set = "850"
version = "005010"
dictionary = ["PER", "SAC"]
tolerate_element = ["5"]
nodes = [
 {seg="BEG", min=1, max=1, elements=["353 M ID 2 2 = 00 05 ! 01 04", "92 M ID 2 2 = NE SA", "324 M AN 1 22", "328 O AN 1 30",
  "373 M DT 8 8"]},
 {seg="REF", min=0, max=2, elements=["128 M ID 2 3", "127 O AN 1 50", "352 O AN 1 80"], conditions=["R0203"]},
 {seg="DTM", min=0, max=10, elements=["374 M ID 3 3", "373 O DT 8 8", "337 O TM 4 8"], conditions=["R0203"]},
 {loop="N1", min=0, max=2, nodes=[
  {seg="N1", min=1, max=1, elements=["98 M ID 2 3 = BT ST VN", "93 O AN 1 60 wide"]},
  {seg="N3", min=0, max=2, elements=["166 M AN 1 55 wide"]}]},
 {loop="PO1", min=1, max=99999, nodes=[
  {seg="PO1", min=1, max=1, elements=["350 O AN 1 20", "330 M R 1 5", "355 M ID 2 2 = CA EA ! DZ", "212 O R 1 9", "639 O ID 2 2",
   "235 O ID 2 2", "234 O AN 1 48"], conditions=["C0504", "P0607"]},
  {seg="PID", min=0, max=5, elements=["349 M ID 1 1 = F", "750 O ID 2 3", "559 N", "751 N", "352 O AN 1 80 wide"]}]},
 {seg="CTT", min=0, max=1, elements=["354 M N0 1 6"]},
]
"#;

/// A notice of shipment under a convention: up to two loops HL, in each two REF with IA and at most one loop N1, in which N3
/// isn't used. The slots are BSN 1, loop HL 2, HL 3, REF 4, loop N1 5, N1 6, N3 7, N4 8, CTT 9.
pub const NOTICE: &str = r#"name = "NOTICE"
group = "SH"
set = "856"
version = "005010"
convention = "HUB1"
dictionary = ["PER"]
nodes = [
 {seg="BSN", min=1, max=1, elements=["353 M ID 2 2"]},
 {loop="HL", min=1, max=2, nodes=[
  {seg="HL", min=1, max=1, elements=["628 M AN 1 12"]},
  {seg="REF", min=2, max=2, pick=["1 IA"], elements=["128 M ID 2 3", "127 M AN 1 50"]},
  {loop="N1", min=0, max=1, nodes=[
   {seg="N1", min=1, max=1, elements=["98 M ID 2 3"]},
   {seg="N3", min=0, max=0, elements=["166 M AN 1 55"]},
   {seg="N4", min=0, max=1, elements=["19 M C x2 ; 20 M AN 1 3 ; 21 O ID 2 2"]}]}]},
 {seg="CTT", min=0, max=1, elements=["354 M N0 1 6"]},
]
"#;

/// A shipment with a hierarchy and dependencies. The slots are BSN 1, loop HL 2, HL 3, MAN 4, loop LX 5, LX 6, and HL 7, which has
/// no rows.
pub const SHIPMENT: &str = r#"name = "SHIPMENT"
group = "SH"
set = "856"
version = "005010"
hl = {pairs=["/S", "S/O", "O/P", "O/I", "P/I"], sequential=true}
depends = [
 {kind="need", slot="HL", at=3, codes=["P"], target="MAN", element=0},
 {kind="need", slot="MAN", at=1, codes=["GM"], target="HL", element=4},
 {kind="ban", slot="MAN", at=1, codes=["UC"], target="HL", element=4},
 {kind="ban", slot="MAN", at=1, codes=["AA"], target="LX", element=0},
]
nodes = [
 {seg="BSN", min=1, max=1, elements=["353 M ID 2 2", "396 M AN 2 30", "373 M DT 8 8", "337 M TM 4 8"]},
 {loop="HL", min=0, max=99999, nodes=[
  {seg="HL", label="HL", min=1, max=1, elements=["628 M AN 1 12", "734 O AN 1 12", "735 M ID 1 2 = I O P S ! T", "736 O ID 1 1 = 0 1"]},
  {seg="MAN", label="MAN", min=0, max=10, elements=["88 M ID 1 2", "87 M AN 1 48"]}]},
 {loop="LX", min=0, max=9, nodes=[
  {seg="LX", label="LX", min=1, max=1, elements=["554 M N0 1 6"]},
  {seg="HL", min=0, max=1, elements=[]}]},
]
"#;

pub fn guide_of(alloc: Global, text: &str) -> Result<Guide, Fail> {
    Ok(read_guide(alloc, text.as_bytes())?)
}
