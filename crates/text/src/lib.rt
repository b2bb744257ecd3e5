// Text gathered in a lent buffer, whose first bytes are the text so far. What finds no room is left out.
#![tactic(auto, using(crate::proofs::Filling::puts))]

ghost use Rattle.std.specs.Prelude.{◌≡◌, [], ◌∷◌, length, leb, take};
ghost use Rattle.text.specs.Text as rule;

// The buffer, and how many of its bytes are held.
#[derive(Drop)]
pub struct Text<'a> {
    buffer: &'a mut [u8],
    held: usize,
}

impl<'a> Text<'a> {
    // Nothing is held.
    pub fn new(buffer: &'a mut [u8]) -> Self
        ensures { result ≡ rule.begun buffer.entry }
    {
        Self { buffer, held: 0 }
    }

    // The buffer's first bytes are held, all at most.
    pub fn holding(buffer: &'a mut [u8], held: usize) -> Self
        ensures { result ≡ rule.holding buffer.entry held }
    {
        let held = held.min(buffer.len());
        Self { buffer, held }
    }

    // How many bytes are held.
    pub fn held(&self) -> usize
        ensures { result ≡ self.now.held }
    {
        self.held
    }

    // Whether there is no room for a byte more.
    pub fn is_full(&self) -> bool
        ensures { result ≡ leb (length self.now.buffer.now) self.now.held }
    {
        self.buffer.len() <= self.held
    }

    // The text so far.
    pub fn written(&self) -> &[u8]
        ensures { result.now ≡ take self.now.held self.now.buffer.now }
    {
        &self.buffer[..self.held.min(self.buffer.len())]
    }

    // The bytes, as far as there is room.
    #[tactic(auto, using(crate::proofs::Filling::put_room, crate::proofs::Filling::put_full))]
    pub fn put(&mut self, bytes: &[u8])
        ensures { self.new ≡ rule.put bytes.now self.old }
    {
        let n = bytes.len().min(self.buffer.len().saturating_sub(self.held));
        if n > 0 {
            self.buffer[self.held..self.held + n].copy_from_slice(&bytes[..n]);
            self.held += n;
        }
    }

    // One byte.
    #[tactic(auto, using(crate::proofs::Filling::put_byte, crate::proofs::Filling::put_full))]
    pub fn byte(&mut self, b: u8)
        ensures { self.new ≡ rule.put (b ∷ []) self.old }
    {
        if self.held < self.buffer.len() {
            self.buffer[self.held] = b;
            self.held += 1;
        }
    }

    // A number in decimal.
    #[tactic(auto, using(crate::proofs::Filling::puts, crate::proofs::Digits::digits_one, crate::proofs::Digits::digits_more))]
    pub fn decimal(&mut self, x: u64)
        ensures { self.new ≡ rule.put (rule.digits x) self.old }
    {
        if x >= 10 {
            self.decimal(x / 10);
        }
        self.byte(b'0' + (x % 10) as u8);
    }

    // A blank and a number in decimal.
    pub fn number(&mut self, x: u64)
        ensures { self.new ≡ rule.put (32 ∷ rule.digits x) self.old }
    {
        self.byte(b' ');
        self.decimal(x);
    }
}
