//! The files of two partners, and the header of an interchange that the first sends.

pub const HUB: &str = "[hub]\nqualifier=\"ZZ\"\nid=\"HUB\"\ncode=\"HUB\"\nusage=\"P\"\n";

pub const ACME: &str = "[[partner]]\nname=\"ACME\"\nqualifier=\"01\"\nid=\"ACME\"\ncode=\"ACME\"\n\
    element=\"*\"\ncomponent=\">\"\nrepetition=\"^\"\nterminator=\"~\"\ncap=2\nguides=[\"H850\",\"H856\"]\n";

pub const BOLT: &str = "[[partner]]\nname=\"BOLT\"\nqualifier=\"ZZ\"\nid=\"BOLT\"\ncode=\"BOLT\"\n\
    element=\"|\"\ncomponent=\":\"\nrepetition=\"^\"\nterminator=\"!\"\ncap=1\nguides=[\"H850\"]\n";

pub const ROUTES: &str =
    "[[route]]\ncode=\"ACME\"\nto=\"ACME\"\n[[route]]\ncode=\"BOLT\"\nto=\"BOLT\"\n";

pub const COUNTERS: &str =
    "version = 2\n\n[[counter]]\npartner = \"ACME\"\ninterchange = 1\ngroup = 1\nset = 1\n\n\
    [[counter]]\npartner = \"BOLT\"\ninterchange = 1\ngroup = 1\nset = 1\n";

pub const H850: &str = "name=\"H850\"\ngroup=\"PO\"\nset=\"850\"\nversion=\"005010\"\n\
    nodes=[{seg=\"BEG\",min=1,max=1,elements=[\"353 M ID 2 2\"]}]\n";

pub const H856: &str = "name=\"H856\"\ngroup=\"SH\"\nset=\"856\"\nversion=\"005010\"\n\
    nodes=[{seg=\"BSN\",min=1,max=1,elements=[\"353 M ID 2 2\"]}]\n";

/// From the partner ACME.
pub const FROM_ACME: &[u8] =
    b"ISA*00*          *00*          *01*ACME           *ZZ*HUB            *260228*0900*^*00501*000000007*0*P*>~";

/// From no partner: ACME's id, with BOLT's qualifier.
pub const FROM_NOBODY: &[u8] =
    b"ISA*00*          *00*          *ZZ*ACME           *ZZ*HUB            *260228*0900*^*00501*000000007*0*P*>~";

/// From the partner BOLT.
pub const FROM_BOLT: &[u8] =
    b"ISA|00|          |00|          |ZZ|BOLT           |ZZ|HUB            |260228|0915|U|00501|000000003|0|P|:!";
