//! The segments of a set by their marks: each with its offset, and where it is plain the places of its element separators.
use marked_segments::MarkedSegments;
use std::alloc::Global;
use std::test::Fail;
use x12_bytes::Delims;
use x12_segs::SetSpan;

const DELIMS: Delims = Delims {
    element: b'*',
    component: b'>',
    repetition: Some(b'^'),
    terminator: b'~',
};

const LINE_FEED_ENDS: Delims = Delims {
    element: b'*',
    component: b'>',
    repetition: None,
    terminator: b'\n',
};

const TAB_SEPARATES: Delims = Delims {
    element: b'\t',
    component: b'>',
    repetition: None,
    terminator: b'~',
};

/// The delimiters of a text, the text, and its segments, each as `offset:bytes@places;`, or with `-` where it isn't plain.
const CASES: &[(Delims, &[u8], &str)] = &[
    (DELIMS, b"", ""),
    (DELIMS, b"ST*850*0001", ""),
    (
        DELIMS,
        b"ST*850*0001~CTT~SE*3*0001~",
        "0:ST*850*0001@2 6;12:CTT@;16:SE*3*0001@2 4;",
    ),
    (
        DELIMS,
        b"ST*850*0001~\r\nN1*ST**92~\nN2*A>B~\r\n~~N3*1^2~N4*NORTHTOWN AND SOUTHTOWN*NY~SE",
        "0:ST*850*0001@2 6;14:N1*ST**92-;25:N2*A>B-;36:N3*1^2-;43:N4*NORTHTOWN AND SOUTHTOWN*NY@2 26;",
    ),
    (
        LINE_FEED_ENDS,
        b"ST*850*0001\nN1*^\n\nSE*3*0001\n",
        "0:ST*850*0001@2 6;12:N1*^@2;18:SE*3*0001@2 4;",
    ),
    (TAB_SEPARATES, b"CTT\t1~A*B~", "0:CTT\t1-;6:A*B@;"),
];

fn add_places(out: &mut String, places: Option<&[usize]>) -> Result<(), Fail> {
    let Some(places) = places else {
        out.push_str("-")?;
        return Ok(());
    };
    out.push_str("@")?;
    for i in 0..places.len() {
        if i > 0 {
            out.push_str(" ")?;
        }
        write!(out, "{}", places[i])?;
    }
    Ok(())
}

fn told(alloc: Global, delims: Delims, text: &[u8]) -> Result<String, Fail> {
    let set = SetSpan {
        start: 0,
        end: text.len(),
        delims,
        closed: false,
    };
    let mut segments = MarkedSegments::of_span(alloc, text, &set)?;
    let mut out = String::new(alloc);
    // no segment is empty, so there are no more than bytes
    for _ in 0..text.len() {
        let Some(seg) = segments.next_segment() else {
            break;
        };
        let bytes = std::str::from_utf8(seg.bytes()).map_err(|_| "no text")?;
        write!(out, "{}:{bytes}", seg.start())?;
        add_places(&mut out, segments.separators())?;
        out.push_str(";")?;
    }
    Ok(out)
}

#[test]
fn segments_have_places(rt: HostRuntime) -> Result<(), Fail> {
    for (delims, text, wanted) in CASES {
        let found = told(rt.alloc(), *delims, text)?;
        if found.as_str() != *wanted {
            return Err(Fail::new(format!(in rt.alloc(); "found {found}, not {wanted}")?));
        }
    }
    Ok(())
}

fn expect(alloc: Global, text: &[u8], wanted: &str) -> Result<(), Fail> {
    let found = told(alloc, DELIMS, text)?;
    if found.as_str() != wanted {
        return Err(Fail::new(format!(in alloc; "{} bytes: {found}, not {wanted}", text.len())?));
    }
    Ok(())
}

/// One separator or one odd byte after this many bytes, before a segment that has neither, in texts of every length.
#[test]
fn a_separator_stands_anywhere(rt: HostRuntime) -> Result<(), Fail> {
    let alloc = rt.alloc();
    let mut front = String::new(alloc);
    for place in 0..150usize {
        let next = place + 2;
        let plain = format!(in alloc; "{front}*~CTT~")?;
        let wanted = format!(in alloc; "0:{front}*@{place};{next}:CTT@;")?;
        expect(alloc, plain.as_str().as_bytes(), wanted.as_str())?;
        let odd = format!(in alloc; "{front}>~CTT~")?;
        let wanted = format!(in alloc; "0:{front}>-;{next}:CTT@;")?;
        expect(alloc, odd.as_str().as_bytes(), wanted.as_str())?;
        front.push_str("A")?;
    }
    Ok(())
}

/// There is room for the places of 64 separators; a segment with more isn't said to be plain.
#[test]
fn separators_are_few(rt: HostRuntime) -> Result<(), Fail> {
    let alloc = rt.alloc();
    let mut many = String::new(alloc);
    let mut places = String::new(alloc);
    for place in 0..64usize {
        many.push_str("*")?;
        if place > 0 {
            places.push_str(" ")?;
        }
        write!(places, "{place}")?;
    }
    let text = format!(in alloc; "{many}~")?;
    let wanted = format!(in alloc; "0:{many}@{places};")?;
    expect(alloc, text.as_str().as_bytes(), wanted.as_str())?;
    let text = format!(in alloc; "{many}*~A*B~")?;
    let wanted = format!(in alloc; "0:{many}*-;66:A*B@1;")?;
    expect(alloc, text.as_str().as_bytes(), wanted.as_str())
}
