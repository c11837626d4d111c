// The fixed-select mux: a part of one of two recorded control traces, itself and no copy.
//
// Writes out "Fixed-select mux" of document 01. No control byte is read.
#![tactic(auto)]

ghost use Rattle.std.specs.Prelude.{◌≡◌};
ghost use Rattle.mux.specs.Mux.{part_at, out_of_range, muxed};

// Whether a part of a trace of so many cycles is refused. Nothing here can wrap.
fn out_of_range(cycles: usize, select: u8, first: usize, count: usize) -> bool
    ensures { result ≡ out_of_range cycles select first count }
{
    select > 1 || count == 0 || cycles < first || cycles - first < count
}

// The part of trace select that begins at cycle first and has count cycles; refused, the empty part at the start of trace 0, which no
// accepted call gives. It answers the part and no `Result`, since `part_at result` promises where the empty part lies. `select` is one
// number, and `first` and `count` are two, as C gives them: another trace than 0 and 1 is refused, and a part whose end no number holds.
pub fn mux_static<'a>(
    t0: &'a [u8],
    t1: &'a [u8],
    select: u8,
    first: usize,
    count: usize,
) -> &'a [u8]
    ensures { part_at result ≡ muxed t0.entry t1.entry select first count }
{
    let selected = if select == 0 { t0 } else { t1 };
    if out_of_range(selected.len(), select, first, count) {
        return &t0[..0];
    }
    &selected[first..first + count]
}
