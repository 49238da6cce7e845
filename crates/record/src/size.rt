// The size of a table or a code (document 01, "Refusal numbers", 1 and 9).

ghost use Rattle.std.specs.Prelude.{◌≡◌, ◌*◌, cond, Some, None};
ghost use Rattle.rules.specs.Bytes.{records, whole_records};

// How many whole records there are, at least one and at most so many, or none: not "bytes 0, above" the bytes of these, "or not a
// multiple of 8".
pub fn whole(bytes: &[u8], most: usize) -> Option<usize>
    ensures { result ≡ cond (whole_records (8 * most) bytes.now) (Some (records bytes.now)) None }
{
    let records = bytes.len() / 8;
    if records == 0 || most < records || bytes.len() % 8 != 0 {
        return None;
    }
    Some(records)
}
