//! Sets whose structure is wrong, and strays.
use super::guides::{NOTICE, ORDER};
use super::sets::{Cases, expect};
use std::test::Fail;

/// Sets of an order, and what is found in each.
const ORDERS: Cases = &[
    // clean, with and without what is optional
    [
        "ST*850*0001~BEG*00*SA*PO100**20260228~PO1*1*5*EA*2.50~SE*4*0001~",
        " clean\n",
    ],
    [
        "ST*850*0001~BEG*00*SA*PO100**20260228~REF*DP*7~DTM*002*20260301~N1*ST*A~N3*B~PO1**5*EA~PID*F****C~PO1**1*CA~CTT*2~SE*11*0001~",
        " clean\n",
    ],
    // what is needed is missing, a loop is there too often, an id is unknown; SE isn't part of the body
    [
        "ST*850*0001~REF*DP*7~N1*ST*A~N1*BT*B~N1*VN*C~QQ*1~PO1*1*5*EA~SE*8*0001~",
        "2 BEG() 3 1;5 N1(N1) 4 4;6 QQ() 1 0; 5\n",
    ],
    [
        "ST*850*0001~BEG*00*SA*PO100**20260228~SE*3*0001~",
        "3 PO1(PO1) 3 7; 5\n",
    ],
    // a set of its header and trailer alone, and of its header alone
    ["ST*850*0001~SE*2*0001~", "2 BEG() 3 1;2 PO1(PO1) 3 7; 5\n"],
    ["ST*850*0001~", "2 BEG() 3 1;2 PO1(PO1) 3 7; 5 2\n"],
    // strays alone: one unknown, one of the dictionary, one out of sequence; their elements aren't checked
    [
        "ST*850*0001~QQ*1~PER*1~PID*G~SE*5*0001~",
        "2 QQ() 1 0;3 PER() 6 0;4 PID() 7 0;5 BEG() 3 1;5 PO1(PO1) 3 7; 5\n",
    ],
    // a second REF may come, a third one not
    [
        "ST*850*0001~BEG*00*SA*PO100**20260228~REF*DP*7~REF*DP*8~REF*DP*9~PO1*1*5*EA~SE*7*0001~",
        "5 REF() 5 2; 5\n",
    ],
    // what begins well is judged to its end
    [
        "ST*850*0001~BEG*00*SA*PO100**20260228~PO1*1*5*EA~CTT*1~CTT*1~SE*6*0001~",
        "5 CTT() 5 10; 5\n",
    ],
];

#[test]
fn orders(rt: HostRuntime) -> Result<(), Fail> {
    expect(rt.alloc(), ORDER, ORDERS)
}

/// Sets of a notice, and what is found in each.
const NOTICES: Cases = &[
    [
        "ST*856*0001~BSN*00~HL*1~REF*IA*X~REF*IA*Y~CTT*1~SE*7*0001~",
        " clean\n",
    ],
    // too few of a segment in a loop
    [
        "ST*856*0001~BSN*00~HL*1~REF*IA*X~CTT*1~SE*6*0001~",
        "5 REF(HL) I8 4; I5\n",
    ],
    // another code than the one that is picked, which leaves both places open
    [
        "ST*856*0001~BSN*00~HL*1~REF*DP*X~REF*IA*Y~CTT*1~SE*7*0001~",
        "4 REF() 2 0;6 REF(HL) I8 4; 5 I5\n",
    ],
    // one that isn't used
    [
        "ST*856*0001~BSN*00~HL*1~REF*IA*X~REF*IA*Y~N1*ST~N3*A~SE*8*0001~",
        "7 N3(N1) I4 7; I5\n",
    ],
    // one that isn't used still has its elements checked
    [
        "ST*856*0001~BSN*00~HL*1~REF*IA*X~REF*IA*Y~N1*ST~N3~SE*8*0001~",
        "7 N3(N1) 8 7 1.0.0 1 166 ;7 N3(N1) I4 7; 5 I5\n",
    ],
    // a third loop, in which a segment is missing too
    [
        "ST*856*0001~BSN*00~HL*1~REF*IA*X~REF*IA*Y~HL*2~REF*IA*X~REF*IA*Y~HL*3~SE*10*0001~",
        "9 HL(HL) 4 2;10 REF(HL) 3 4; 5\n",
    ],
];

#[test]
fn notices(rt: HostRuntime) -> Result<(), Fail> {
    expect(rt.alloc(), NOTICE, NOTICES)
}
