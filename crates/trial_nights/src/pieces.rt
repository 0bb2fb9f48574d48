//! What one partner sends in an order.

/// One order of ACME to BOLT.
pub const ORDER_IN_ITS_INTERCHANGE: &[u8] =
    b"ISA*00*          *00*          *01*ACME           *ZZ*HUB            *260228*0900*^*00501*000000007*0*P*>~\
        GS*PO*ACME*BOLT*20260228*0900*12*X*005010~ST*850*0001~BEG*00*SA*PO100**20260228~PO1*1*5*EA*2.50~SE*4*0001~\
        GE*1*12~IEA*1*000000007~";

/// The header of an interchange from ACME.
pub const FROM_ACME: &[u8] =
    b"ISA*00*          *00*          *01*ACME           *ZZ*HUB            *260228*0900*^*00501*000000007*0*P*>~";
