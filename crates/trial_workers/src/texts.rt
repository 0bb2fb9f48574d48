//! Texts of one interchange, made of groups and sets with given control numbers.
use std::alloc::Global;
use std::test::Fail;

const HEADER: &[u8] = b"ISA*00*          *00*          *01*ACME           *ZZ*HUB            \
*260228*0900*^*00501*000000007*0*P*>~";

/// An interchange of this many groups without a set, numbered as asked for.
pub fn of_groups(alloc: Global, numbers: &[u32]) -> Result<Vec<u8>, Fail> {
    let mut text = Vec::new(alloc);
    text.extend_from_slice(HEADER)?;
    for number in numbers {
        let group = format!(in alloc;
            "GS*PO*ACME*BOLT*20260228*0900*{number}*X*005010~GE*0*{number}~"
        )?;
        text.extend_from_slice(group.as_bytes())?;
    }
    let trailer = format!(in alloc; "IEA*{}*000000007~", numbers.len())?;
    text.extend_from_slice(trailer.as_bytes())?;
    Ok(text)
}

/// An interchange of one group with these sets.
pub fn of_sets(alloc: Global, numbers: &[&str]) -> Result<Vec<u8>, Fail> {
    let mut text = Vec::new(alloc);
    text.extend_from_slice(HEADER)?;
    text.extend_from_slice(b"GS*PO*ACME*BOLT*20260228*0900*12*X*005010~")?;
    for number in numbers {
        let set = format!(in alloc; "ST*850*{number}~SE*2*{number}~")?;
        text.extend_from_slice(set.as_bytes())?;
    }
    let trailer = format!(in alloc; "GE*{}*12~IEA*1*000000007~", numbers.len())?;
    text.extend_from_slice(trailer.as_bytes())?;
    Ok(text)
}
