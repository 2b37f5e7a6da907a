// The keywords of a sheet, in the order of its lines.

pub const LAW: [u8; 3] = *b"LAW";

pub const TERM: [u8; 4] = *b"TERM";

pub const START: [u8; 5] = *b"START";

pub const LAST: [u8; 4] = *b"LAST";

pub const ZERO: [u8; 4] = *b"ZERO";

pub const SEVERITY: [u8; 8] = *b"SEVERITY";

pub const W: [u8; 1] = *b"W";
