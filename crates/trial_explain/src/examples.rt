//! Acknowledgments, and the lines on them.

/// An interchange that was cut off, a group of two orders of which one is rejected, and a group whose number stood before, in two
/// interchanges.
pub const TOLD: &[u8] =
    b"ISA*00*          *00*          *ZZ*HUB            *01*ACME           *260301*1530*^*00501*000000001*0*P*>~\
TA1*000000006*260228*0900*R*023~IEA*0*000000001~\
ISA*00*          *00*          *ZZ*HUB            *01*ACME           *260301*1530*^*00501*000000002*0*P*>~\
GS*FA*HUB*ACME*20260301*1530*1*X*005010X231~ST*999*0001*005010X231~AK1*PO*12*005010~AK2*850*0001~IK5*A~\
AK2*850*0002~IK3*N3*3*N1*8~IK4*1>>2*166*12*B~IK3*Q9*6**1~IK5*R*5*4~AK9*P*2*2*1~SE*12*0001~\
ST*999*0002*005010X231~AK1*SH*12*005010~AK2*856*0001~IK5*E*5~AK9*R*1*1*0*19*5~SE*6*0002~GE*2*1~IEA*1*000000002~";

/// What they report.
pub const LINES: &[u8] =
    b"interchange 1, TA1 000000006: refused (TA104 R): no IEA: it was truncated (TA105 023)
interchange 2, group PO 12, 850 0002: rejected: segment 3 N3 in loop N1, element 1, repetition 2 (166): \
more occurrences than the guide allows (IK403 12): B
interchange 2, group PO 12, 850 0002: rejected: segment 6 Q9: \
the segment's id is neither in the guide nor in its dictionary (IK304 1)
interchange 2, group PO 12, 850 0002: rejected: \
SE01 isn't 1 to 10 digits equal to the number of segments, ST and SE among them (IK502 4)
interchange 2, group PO 12: partly accepted (AK901 P)
interchange 2, group SH 12: rejected: an earlier group of the interchange has the same GS06 (AK905 19)
interchange 2, group SH 12: rejected: GE01 isn't 1 to 6 digits equal to the number of sets (AK905 5)
interchange 2, group SH 12, 856 0001: rejected with its group: a segment or element fault whose code has no I (IK502 5)
total ta1s 1 groups 2 sets 3 accepted 1
";

/// What the last set is reported by where its group is cut off.
pub const OPEN: &[u8] =
    b"interchange 2, group SH 12, 856 0001: accepted with errors: a segment or element fault whose code has no I (IK502 5)\n";
