//! Texts that are read, and how they are put together.
use env_index::{Interchange, read_interchange};
use hub_kinds::NoMemory;
use std::alloc::Global;
use std::test::Fail;

pub const HEADER: &[u8] =
    b"ISA*00*          *00*          *01*ACME           *ZZ*HUB            *260228*0900*^*00501*000000007*0*P*>~";

pub const LETTER_IN_CONTROL: &[u8] =
    b"ISA*00*          *00*          *01*ACME           *ZZ*HUB            *260228*0900*^*00501*00000000A*0*P*>~";

pub const ORDER: &[u8] =
    b"ISA*00*          *00*          *01*ACME           *ZZ*HUB            *260228*0900*^*00501*000000007*0*P*>~\
      GS*PO*ACME*BOLT*20260228*0900*12*X*005010~ST*850*0001~BEG*00*SA*PO100**20260228~PO1*1*5*EA*2.50~SE*4*0001~\
      GE*1*12~IEA*1*000000007~";

pub const ORDER_IN_LINES: &[u8] =
    b"ISA*00*          *00*          *01*ACME           *ZZ*HUB            *260228*0900*^*00501*000000007*0*P*>~\r\n\
      GS*PO*ACME*BOLT*20260228*0900*12*X*005010~\r\nST*850*0001~\r\nBEG*00*SA*PO100**20260228~\r\nPO1*1*5*EA*2.50~\r\n\
      SE*4*0001~\r\nGE*1*12~\r\nIEA*1*000000007~\r\n";

pub const HEADER_IN_AN_ELEMENT: &[u8] =
    b"ISA*00*          *00*          *01*ACME           *ZZ*HUB            *260228*0900*^*00501*000000007*0*P*>~\
      GS*PO*ACME*BOLT*20260228*0900*12*X*005010~ST*850*0001~BEG*00*SA*PO100**20260228~N9*ZZ*NOTE~\
      MSG*ISA|00|          |00|          |ZZ|BOLT           |ZZ|HUB            |260228|0915|U|00501|000000003|0|P|:!~\
      PO1*1*5*EA*2.50~SE*6*0001~GE*1*12~IEA*1*000000007~";

pub const HEADER_AS_A_SEGMENT: &[u8] =
    b"ISA*00*          *00*          *01*ACME           *ZZ*HUB            *260228*0900*^*00501*000000007*0*P*>~\
      GS*PO*ACME*BOLT*20260228*0900*12*X*005010~ST*850*0001~BEG*00*SA*PO100**20260228~N9*ZZ*NOTE~\
      ISA|00|          |00|          |ZZ|BOLT           |ZZ|HUB            |260228|0915|U|00501|000000003|0|P|:!~\
      PO1*1*5*EA*2.50~SE*6*0001~GE*1*12~IEA*1*000000007~";

/// The order without its IEA, and the order after it.
pub const ORDER_WITHOUT_TRAILER: &[u8] =
    b"ISA*00*          *00*          *01*ACME           *ZZ*HUB            *260228*0900*^*00501*000000007*0*P*>~\
      GS*PO*ACME*BOLT*20260228*0900*12*X*005010~ST*850*0001~BEG*00*SA*PO100**20260228~PO1*1*5*EA*2.50~SE*4*0001~\
      GE*1*12~ISA*00*          *00*          *01*ACME           *ZZ*HUB            *260228*0900*^*00501*000000007*0*P*>~\
      GS*PO*ACME*BOLT*20260228*0900*12*X*005010~ST*850*0001~BEG*00*SA*PO100**20260228~PO1*1*5*EA*2.50~SE*4*0001~\
      GE*1*12~IEA*1*000000007~";

/// Acknowledgments of interchanges in a set and outside groups.
pub const NOTICES: &[u8] =
    b"ISA*00*          *00*          *01*ACME           *ZZ*HUB            *260228*0900*^*00501*000000007*0*P*>~\
      TA1*000000001*260228*0900*A*000~GS*PO~ST*850*0001~TA1*1~SE*3*0001~GE*1~TA1*2~IEA*1*7~";

/// Two groups, one without GE, and three sets, two without SE.
pub const WITHOUT_TRAILERS: &[u8] =
    b"ISA*00*          *00*          *01*ACME           *ZZ*HUB            *260228*0900*^*00501*000000007*0*P*>~\
      GS*PO*1~ST*850*0001~BEG*00~ST*850*0002~GE*2*1~GS*PO*2~ST*850*0001~SE*2*0001~IEA*2*7~";

/// A text with another after it.
pub fn joined(alloc: Global, front: &[u8], behind: &[u8]) -> Result<Vec<u8>, NoMemory> {
    let mut text = Vec::from_slice(alloc, front)?;
    text.extend_from_slice(behind)?;
    Ok(text)
}

/// The interchange whose header begins at this offset of a short text.
pub fn read(alloc: Global, text: &[u8], start: usize) -> Result<Interchange<'_>, Fail> {
    if 1000 <= text.len() {
        return Err("long text".into());
    }
    match read_interchange(alloc, text, start)? {
        None => Err("no header".into()),
        Some(found) => Ok(found),
    }
}
