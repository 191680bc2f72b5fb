// The fixed characters of 01's records, compared by the reader and written by the writer.

// Code and variant of each record.
pub const FILE_HEADER: [u8; 5] = *b"0001A";

pub const BATCH_HEADER_B: [u8; 5] = *b"0010B";

pub const BATCH_HEADER_C: [u8; 5] = *b"0010C";

pub const FIXED_DESCRIPTION: [u8; 5] = *b"0020A";

pub const ORDERING_PARTY: [u8; 5] = *b"0030B";

pub const TRANSACTION: [u8; 5] = *b"0100A";

pub const NAME_PAYER: [u8; 5] = *b"0110B";

pub const CITY_PAYER: [u8; 5] = *b"0113B";

pub const PAYMENT_REFERENCE: [u8; 5] = *b"0150A";

pub const DESCRIPTION: [u8; 5] = *b"0160A";

pub const NAME_BENEFICIARY: [u8; 5] = *b"0170B";

pub const CITY_BENEFICIARY: [u8; 5] = *b"0173B";

pub const BATCH_TRAILER: [u8; 5] = *b"9990A";

pub const FILE_TRAILER: [u8; 5] = *b"9999A";

// The fixed fields of the two headers.
pub const FILE_NAME: [u8; 8] = *b"CLIEOP03";

pub const CURRENCY: [u8; 3] = *b"EUR";

// The end of a line that is written.
pub const LINE_END: [u8; 2] = *b"\r\n";

// The counter that no identification has.
pub const NO_COUNTER: [u8; 2] = *b"00";

// The test code: a file for payment, or one to try.
pub const PRODUCTION: [u8; 1] = *b"P";

pub const TEST: [u8; 1] = *b"T";

pub const GROUP_PAYMENTS: [u8; 2] = *b"00";

pub const GROUP_DEBITS: [u8; 2] = *b"10";

// Transaction types.
pub const TYPE_UNCHECKED_CREDITOR: [u8; 4] = *b"0000";

pub const TYPE_UNCHECKED_SALARY: [u8; 4] = *b"0003";

pub const TYPE_CREDITOR: [u8; 4] = *b"0005";

pub const TYPE_SALARY: [u8; 4] = *b"0008";

pub const TYPE_DEBIT: [u8; 4] = *b"1001";

pub const TYPE_UNCHECKED_DEBIT: [u8; 4] = *b"1002";
