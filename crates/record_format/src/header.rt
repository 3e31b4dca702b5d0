//! What stands before a record's key. The layout is stated in `docs/FORMATS.md`.

ghost use Rattle.hr_base.specs.declared.name.Class.TheVariants.{Value, Tomb, Clear};
ghost use Rattle.record_format.specs.Headers.{ReadsHeader};

use hr_base::Class;

// The numbers of a complete header. Where a class has no key or no value, the length is 0.
#[derive(Drop)]
pub(crate) struct Header {
    pub(crate) seq: u64,
    pub(crate) prefix: u64,
    pub(crate) key_len: u32,
    pub(crate) value_len: u32,
}

// The header that the bytes begin with, and the bytes behind it.
pub(crate) fn read_header(bytes: &[u8], class: Class) -> Option<(Header, &[u8])>
    ensures { ReadsHeader class bytes.now result }
{
    match class {
        Class::Value => read_value_header(bytes),
        Class::Tomb => read_tomb_header(bytes),
        Class::Clear => read_clear_header(bytes),
    }
}

fn read_value_header(bytes: &[u8]) -> Option<(Header, &[u8])>
    ensures { ReadsHeader Value bytes.now result }
{
    let (seq, rest) = bytes.split_first_chunk::<8>()?;
    let (prefix, rest) = rest.split_first_chunk::<8>()?;
    let (key_len, rest) = rest.split_first_chunk::<4>()?;
    let (value_len, rest) = rest.split_first_chunk::<4>()?;
    let header = Header {
        seq: u64::from_be_bytes(*seq),
        prefix: u64::from_be_bytes(*prefix),
        key_len: u32::from_be_bytes(*key_len),
        value_len: u32::from_be_bytes(*value_len),
    };
    Some((header, rest))
}

fn read_tomb_header(bytes: &[u8]) -> Option<(Header, &[u8])>
    ensures { ReadsHeader Tomb bytes.now result }
{
    let (seq, rest) = bytes.split_first_chunk::<8>()?;
    let (prefix, rest) = rest.split_first_chunk::<8>()?;
    let (key_len, rest) = rest.split_first_chunk::<4>()?;
    let header = Header {
        seq: u64::from_be_bytes(*seq),
        prefix: u64::from_be_bytes(*prefix),
        key_len: u32::from_be_bytes(*key_len),
        value_len: 0,
    };
    Some((header, rest))
}

fn read_clear_header(bytes: &[u8]) -> Option<(Header, &[u8])>
    ensures { ReadsHeader Clear bytes.now result }
{
    let (prefix, rest) = bytes.split_first_chunk::<8>()?;
    let (seq, rest) = rest.split_first_chunk::<8>()?;
    let header = Header {
        seq: u64::from_be_bytes(*seq),
        prefix: u64::from_be_bytes(*prefix),
        key_len: 0,
        value_len: 0,
    };
    Some((header, rest))
}
