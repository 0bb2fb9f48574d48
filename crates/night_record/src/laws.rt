ghost use Rattle.night_record.specs.Laws.{AddressesReadBack, AgainReadsBack, RecordsReadBack, TakenReadBack};

/// Two records that can be are written as one text only if they are the same: what is read of a record's text is that record.
pub fn records_read_back()
    ensures { RecordsReadBack }
{}

/// Two lists of interchanges are written as one table only if they are the same.
pub fn taken_reads_back()
    ensures { TakenReadBack }
{}

/// Two lists of addresses with their numbers are written as one table only if they are the same.
pub fn addresses_read_back()
    ensures { AddressesReadBack }
{}

/// Two lists of sets that nights were asked for again are written as one table only if they are the same.
pub fn again_reads_back()
    ensures { AgainReadsBack }
{}
