//! The rounds of SipHash-2-4, a word at a time.

ghost use Rattle.std.specs.Prelude.{◌≡◌, length};
ghost use Rattle.std.specs.Int.{w64, from_le_bytes};

/// The four words of SipHash.
#[derive(Clone, Copy, Debug, Drop)]
pub struct State {
    pub v0: u64,
    pub v1: u64,
    pub v2: u64,
    pub v3: u64,
}

/// The state before the first word, with the key 0 and a result of 128 bits.
pub const INITIAL: State = State {
    v0: 0x736f_6d65_7073_6575,
    v1: 0x646f_7261_6e64_6f6d ^ 0xee,
    v2: 0x6c79_6765_6e65_7261,
    v3: 0x7465_6462_7974_6573,
};

impl State {
    ghost use Rattle.jsx_kit.specs.SipHash.{sip_round, sip_rounds, take_word, folded, first_end, second_end};

    #[inline(always)]
    #[tactic(auto, unfolding(crate::specs::SipHash::sip_round))]
    fn round(self) -> State
        ensures { result ≡ sip_round self }
    {
        let State { v0, v1, v2, v3 } = self;
        let a = v0.wrapping_add(v1);
        let b = v1.rotate_left(13) ^ a;
        let a = a.rotate_left(32);
        let c = v2.wrapping_add(v3);
        let d = v3.rotate_left(16) ^ c;
        let e = a.wrapping_add(d);
        let f = c.wrapping_add(b);
        State {
            v0: e,
            v1: b.rotate_left(17) ^ f,
            v2: f.rotate_left(32),
            v3: d.rotate_left(21) ^ e,
        }
    }

    #[inline(always)]
    #[tactic(auto, unfolding(crate::specs::SipHash::sip_rounds))]
    fn four_rounds(self) -> State
        ensures { result ≡ sip_rounds 4 self }
    {
        self.round().round().round().round()
    }

    /// The state after the word `word`.
    #[inline(always)]
    #[tactic(auto, unfolding(crate::specs::SipHash::take_word, crate::specs::SipHash::sip_rounds))]
    pub fn take_word(mut self, word: u64) -> State
        ensures { result ≡ take_word self word }
    {
        self.v3 ^= word;
        let mut after = self.round().round();
        after.v0 ^= word;
        after
    }

    /// The state after the word of these 8 bytes, low byte first.
    #[inline(always)]
    pub fn take_block(self, block: &[u8]) -> State
        requires { length block.now ≡ 8 }
        ensures { result ≡ take_word self (from_le_bytes w64 block.now) }
    {
        self.take_word(u64::from_le_bytes([
            block[0], block[1], block[2], block[3], block[4], block[5], block[6], block[7],
        ]))
    }

    /// The state that gives the first half of the result.
    #[tactic(auto, unfolding(crate::specs::SipHash::first_end))]
    pub fn first_end(mut self) -> State
        ensures { result ≡ first_end self }
    {
        self.v2 ^= 0xee;
        self.four_rounds()
    }

    /// The state that gives the second half of the result, after the first.
    #[tactic(auto, unfolding(crate::specs::SipHash::second_end))]
    pub fn second_end(mut self) -> State
        ensures { result ≡ second_end self }
    {
        self.v1 ^= 0xdd;
        self.four_rounds()
    }

    /// The XOR of the four words.
    pub fn folded(self) -> u64
        ensures { result ≡ folded self }
    {
        self.v0 ^ self.v1 ^ self.v2 ^ self.v3
    }
}
