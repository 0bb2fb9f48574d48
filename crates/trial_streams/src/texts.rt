//! Texts, and what is seen of them.
use whole_interchanges::{Advanced, Scout, advance};

pub const ORDER: &[u8] =
    b"ISA*00*          *00*          *01*ACME           *ZZ*HUB            *260228*0900*^*00501*000000007*0*P*>~\
      GS*PO*ACME*BOLT*20260228*0900*12*X*005010~ST*850*0001~BEG*00*SA*PO100**20260228~PO1*1*5*EA*2.50~SE*4*0001~\
      GE*1*12~IEA*1*000000007~";

pub const TWO_ORDERS: &[u8] =
    b"ISA*00*          *00*          *01*ACME           *ZZ*HUB            *260228*0900*^*00501*000000007*0*P*>~\
      GS*PO*ACME*BOLT*20260228*0900*12*X*005010~ST*850*0001~BEG*00*SA*PO100**20260228~PO1*1*5*EA*2.50~SE*4*0001~\
      GE*1*12~IEA*1*000000007~\
      ISA*00*          *00*          *01*ACME           *ZZ*HUB            *260228*0900*^*00501*000000008*0*P*>~\
      GS*PO*ACME*BOLT*20260228*0900*13*X*005010~ST*850*0001~BEG*00*SA*PO101**20260228~PO1*1*5*EA*2.50~SE*4*0001~\
      GE*1*13~IEA*1*000000008~";

/// An order of 220 bytes that has no IEA, and one that has.
pub const WITHOUT_TRAILER: &[u8] =
    b"ISA*00*          *00*          *01*ACME           *ZZ*HUB            *260228*0900*^*00501*000000007*0*P*>~\
      GS*PO*ACME*BOLT*20260228*0900*12*X*005010~ST*850*0001~BEG*00*SA*PO100**20260228~PO1*1*5*EA*2.50~SE*4*0001~\
      GE*1*12~\
      ISA*00*          *00*          *01*ACME           *ZZ*HUB            *260228*0900*^*00501*000000008*0*P*>~\
      GS*PO*ACME*BOLT*20260228*0900*13*X*005010~ST*850*0001~BEG*00*SA*PO101**20260228~PO1*1*5*EA*2.50~SE*4*0001~\
      GE*1*13~IEA*1*000000008~";

/// Up to where the interchanges are whole, whether one is, and whether one is open there.
pub type Seen = (usize, bool, bool);

pub fn seen(read: &[u8]) -> Seen {
    let start = Scout {
        at: 0,
        inside: None,
    };
    let Advanced { scout, count } = advance(read, start);
    (scout.at, count > 0, scout.inside.is_some())
}
