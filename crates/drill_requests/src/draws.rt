//! The generator of the numbers that are drawn.
ghost use Rattle.std.specs.Prelude.{◌≡◌, ◌/◌, ◌<◌, ◌^◌};
ghost use Rattle.drill_requests.specs.Draws.{next_value};

/// A generator of numbers below 32768: the linear congruential one of the C standard's example of
/// `rand`, whose value has 31 bits. The low 16 bits of the value aren't shown.
#[derive(Drop)]
pub struct Draws {
    /// The value from which the next one is made.
    pub value: u32,
}

impl Draws {
    /// A generator that begins at a number.
    pub fn new(start: u32) -> Draws
        ensures { result.value ≡ start }
    {
        Draws { value: start }
    }

    /// The next number.
    pub fn draw(&mut self) -> u32
        ensures value { self.new.value ≡ next_value self.old.value }
        ensures drawn { result ≡ self.new.value / 65536 }
    {
        let next = (u64::from(self.value) * 1_103_515_245 + 12_345) % 2_147_483_648;
        self.value = next as u32;
        self.value / 65_536
    }
}
