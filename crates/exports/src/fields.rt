// The fields of the two control bytes.
ghost use Rattle.std.specs.Prelude.{◌≡◌};
ghost use Rattle.signals.specs.Refusals.{any_of};
ghost use Rattle.signals.specs.Stream.{reserved_bit};
ghost use Rattle.exports.specs.Fields.{stream_fields, mem_fields};

use signals::{memory, stream};

// `reserved` is bit 3 alone.
#[repr(C)]
#[derive(Clone, Copy)]
pub struct StreamFields {
    pub valid: bool,
    pub ready: bool,
    pub clear: bool,
    pub reserved: bool,
    pub strb: u8,
}

#[repr(C)]
#[derive(Clone, Copy)]
pub struct MemFields {
    pub req: bool,
    pub gnt: bool,
    pub wen: bool,
    pub rvalid: bool,
}

#[unsafe(no_mangle)]
pub extern "C" fn floealder_stream_fields(control: u8) -> StreamFields
    ensures { result ≡ stream_fields control }
{
    StreamFields {
        valid: stream::valid(control),
        ready: stream::ready(control),
        clear: stream::clear(control),
        reserved: stream::reserved(control),
        strb: stream::strb(control),
    }
}

#[unsafe(no_mangle)]
pub extern "C" fn floealder_any_reserved(controls: &[u8]) -> bool
    ensures { result ≡ any_of reserved_bit controls.now }
{
    stream::any_reserved(controls)
}

#[unsafe(no_mangle)]
pub extern "C" fn floealder_memory_fields(control: u8) -> MemFields
    ensures { result ≡ mem_fields control }
{
    MemFields {
        req: memory::req(control),
        gnt: memory::gnt(control),
        wen: memory::wen(control),
        rvalid: memory::r_valid(control),
    }
}
