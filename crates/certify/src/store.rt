//! Records in a lent table, three entries each.
ghost use Rattle.std.specs.Prelude.{◌≡◌, ◌+◌, ◌*◌, ◌≤◌, length};
ghost use Rattle.certify.specs.Store.{StandsAt, PutAt};
ghost use Rattle.certify.specs.Kept.{record_if, put_record};

use certify_records::Record;
use gates::halves::{pack, unpack};

/// Record q, if one stands there.
pub fn get(records: &[u64], place: usize) -> Option<Record>
    requires { 3 * place + 3 ≤ length records.now }
    ensures says { StandsAt records.now place result }
    ensures is { result ≡ record_if records.now place }
{
    let at = 3 * place;
    let low = records[at + 1];
    if low == 0 {
        return None;
    }
    let (first, second) = unpack(low);
    let (third, fourth) = unpack(records[at + 2]);
    Some(Record {
        table: records[at],
        first,
        second,
        third,
        fourth,
    })
}

/// Puts record q.
pub fn put(records: &mut [u64], place: usize, known: Record)
    requires { 3 * place + 3 ≤ length records.old }
    ensures says { PutAt records.old place known records.new }
    ensures is { records.new ≡ put_record records.old place known }
{
    let at = 3 * place;
    records[at] = known.table;
    records[at + 1] = pack(known.first, known.second);
    records[at + 2] = pack(known.third, known.fourth);
}
