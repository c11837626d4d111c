// The three-dimensional address generator: its settings, its state, and a run of it into a lent buffer of words.
//
// Writes out "Address generator" of document 01, with the mark for load or store and refusal 11 of request T-07.
#![tactic(auto)]

ghost use Rattle.std.specs.Prelude.{◌≡◌, ◌-◌, ◌<◌, ◌≤◌, length};
ghost use Rattle.addressgen.specs.Stepping.{bit0, bit1, start, address, next, after, addresses};
ghost use Rattle.addressgen.specs.Overwriting.{overwrites_itself};
ghost use Rattle.addressgen.specs.Run.{bad_mask, iterations, Generated};

use signals::Refusal;

// The largest legal mask: two bits.
pub const MAX_MASK: u8 = 3;

// The counters of dimensions 0 and 1 count from 1.
const COUNT_FROM: u32 = 1;

// Base address, lengths of dimensions 0 and 1, how many iterations there are, strides, the dimension mask, and whether this is a store
// or a load. As C lays them out and writes them: any number may be the mask, which is tested (refusal 10), and a flag tells a store.
#[repr(C)]
#[derive(Clone, Copy)]
pub struct Settings {
    pub base: u32,
    pub d0: u32,
    pub d1: u32,
    pub total: u32,
    pub s0: u32,
    pub s1: u32,
    pub s2: u32,
    pub mask: u8,
    pub store: bool,
}

// How far each dimension has come, the counters of dimensions 0 and 1, and how many iterations were made. As C lays them out.
#[repr(C)]
#[derive(Clone, Copy)]
pub struct State {
    pub a0: u32,
    pub a1: u32,
    pub a2: u32,
    pub c0: u32,
    pub c1: u32,
    pub ov: u32,
}

// How many iterations a run made, the state afterwards, and whether every iteration is made.
#[derive(Clone, Copy)]
pub struct Ran {
    pub count: usize,
    pub state: State,
    pub done: bool,
}

impl State {
    // The state before the first iteration.
    pub fn start() -> State
        ensures { result ≡ start }
    {
        State {
            a0: 0,
            a1: 0,
            a2: 0,
            c0: COUNT_FROM,
            c1: COUNT_FROM,
            ov: 0,
        }
    }
}

impl Settings {
    // Mask bit 0: whether addresses run in more than one dimension. Both bits have a reader of one expression, as their definitions are:
    // one reader over the bit's place would be no plainer.
    pub fn bit0(self) -> bool
        ensures { result ≡ bit0 self }
    {
        self.mask % 2 == 1
    }

    // Mask bit 1: whether they then run in all three.
    pub fn bit1(self) -> bool
        ensures { result ≡ bit1 self }
    {
        self.mask / 2 % 2 == 1
    }

    // Whether the mask has more than two bits, or asks for a length that is 0.
    pub fn bad_mask(self) -> bool
        ensures { result ≡ bad_mask self }
    {
        let bit0 = self.bit0();
        let bit1 = self.bit1();
        self.mask > MAX_MASK || bit0 && self.d0 == 0 || bit0 && bit1 && self.d1 == 0
    }

    // Whether this is a store in which a dimension that advances has stride 0. The product is exact: it has 64 bits.
    pub fn overwrites_itself(self) -> bool
        ensures { result ≡ overwrites_itself self }
    {
        let bit0 = self.bit0();
        let bit1 = self.bit1();
        let plane = u64::from(self.d0) * u64::from(self.d1);
        let advances0 = self.total > 1 && (!bit0 || self.d0 > 1);
        let advances1 = bit0 && self.total > self.d0 && !(bit1 && self.d1 == 1);
        let advances2 = bit0 && bit1 && u64::from(self.total) > plane;
        self.store
            && (advances0 && self.s0 == 0 || advances1 && self.s1 == 0 || advances2 && self.s2 == 0)
    }
}

// A generator on its way: its settings, and the state before the next iteration. What is asked of the state is no invariant, but another
// fact in each of its functions: one iteration to come, none too many, as many as there are words.
#[derive(Clone, Copy)]
struct Generator {
    settings: Settings,
    state: State,
}

impl Generator {
    // The address that the next iteration yields.
    fn address(self) -> u32
        ensures { result ≡ address self.settings self.state }
    {
        let Generator { settings, state } = self;
        let along0 = settings.base.wrapping_add(state.a0);
        let along1 = along0.wrapping_add(state.a1);
        if !settings.bit0() {
            along0
        } else if !settings.bit1() {
            along1
        } else {
            along1.wrapping_add(state.a2)
        }
    }

    // The state after the next iteration.
    fn next(self) -> State
        requires { self.state.ov < self.settings.total }
        ensures { result ≡ next self.settings self.state }
    {
        let Generator { settings, state } = self;
        let ov = state.ov + 1;
        if state.c0 < settings.d0 || !settings.bit0() {
            State {
                a0: state.a0.wrapping_add(settings.s0),
                c0: state.c0.wrapping_add(1),
                ov,
                ..state
            }
        } else if state.c1 < settings.d1 || !settings.bit1() {
            State {
                a0: 0,
                a1: state.a1.wrapping_add(settings.s1),
                c0: COUNT_FROM,
                c1: state.c1.wrapping_add(1),
                ov,
                ..state
            }
        } else {
            State {
                a2: state.a2.wrapping_add(settings.s2),
                ov,
                ..State::start()
            }
        }
    }

    // How many iterations are made when up to n are asked for.
    fn iterations(self, n: usize) -> usize
        requires { self.state.ov ≤ self.settings.total }
        ensures { result ≡ iterations self.settings self.state n }
    {
        n.min((self.settings.total - self.state.ov) as usize)
    }

    // Makes an iteration for each word of the buffer: writes their addresses, and gives the state afterwards.
    fn fill(mut self, out: &mut [u32]) -> State
        requires { length out.old ≤ self.settings.total - self.state.ov }
        ensures state { result ≡ after self.settings self.state (length out.old) }
        ensures written { out.new ≡ addresses self.settings self.state (length out.old) }
    {
        for word in out.iter_mut() {
            *word = self.address();
            self.state = self.next();
        }
        self.state
    }
}

// Makes up to n iterations and writes the address that each yields. The first two tests are those of `Legal` in `address_at`, which has
// why they stand twice.
pub fn run(settings: Settings, state: State, n: usize, out: &mut [u32]) -> Result<Ran, Refusal>
    ensures { Generated settings state n out.old out.new result }
{
    if settings.bad_mask() {
        return Err(Refusal::BadMask);
    }
    if settings.overwrites_itself() {
        return Err(Refusal::OverwritesItself);
    }
    if settings.total < state.ov {
        return Err(Refusal::BadState);
    }
    if out.len() < n {
        return Err(Refusal::OutputTooShort);
    }
    let generator = Generator { settings, state };
    let count = generator.iterations(n);
    let state = generator.fill(&mut out[..count]);
    let done = state.ov == settings.total;
    Ok(Ran { count, state, done })
}
