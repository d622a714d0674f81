// The two calls that print more than their number.
ghost use Rattle.std.specs.Prelude.{◌≡◌, [], ◌≤◌, length};
ghost use Rattle.buffer.specs.Bytes.{zeros};
ghost use Rattle.group.specs.Widths.{field_bytes};
ghost use Rattle.model.specs.Layout.{view};
ghost use Rattle.model.specs.Reads.{listing_in};
ghost use Rattle.model.specs.Numbers.{Call, number_in};
ghost use Rattle.model.specs.Perform.{output, perform};
ghost use Rattle.lines.specs.Put.{Put};
ghost use Rattle.answering.specs.Command.{list_bytes};
ghost use Rattle.answering.specs.Said.{printed, record_lines};
ghost use Rattle.answering.specs.Buffers.{answer_bytes};

use crate::records::put_records;

// A read prints its number, and where it is granted the field behind it.
pub fn answer_read(store: &[u8], key: u32, out: &mut [u8]) -> usize
    requires { answer_bytes ≤ length out.old }
    ensures { Put (printed (perform store.now (Call.read key (zeros field_bytes))).answer []) out.old out.new result }
{
    let mut field = [0u8; group::FIELD];
    match reading::read(store, key, &mut field) {
        Ok(()) => lines::output::put_field(out, &field),
        Err(refusal) => lines::output::put_number(out, u8::from(refusal)),
    }
}

// A list prints its number, and where it is granted a line for each record.
pub fn answer_list(store: &[u8], list: &mut [u8], out: &mut [u8]) -> usize
    requires { (length list.old ≡ list_bytes) × (answer_bytes ≤ length out.old) }
    ensures said { Put (printed (perform store.now (Call.list (zeros list_bytes))).answer (record_lines (view store.now)))
        out.old out.new result }
    ensures kept { list.new
        ≡ output (number_in store.now (Call.list (zeros list_bytes))) (listing_in (view store.now)) list.old }
{
    match reading::list(store, list) {
        Ok(count) => {
            let size = lines::output::put_number(out, 0);
            let m = buffer::byte_at(store, lookup::UNITS_AT);
            size + put_records(&mut out[size..], m, list, count)
        }
        Err(refusal) => lines::output::put_number(out, u8::from(refusal)),
    }
}
