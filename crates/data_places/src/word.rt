//! Values that a word holds.
ghost use Rattle.std.specs.Prelude.{◌≡◌};

/// Values that a word holds, each by a word of its own.
pub trait Word: Copy + Drop {
    ghost use Rattle.std.specs.Prelude.{ℕ};

    // the values that there are: where nothing is said, all
    ghost fits: { Self → Type 0 } = { λ x. Unit {0} };

    // the word of each
    ghost code: { Self → ℕ };

    /// The value's word.
    fn to_word(&self) -> u64
        ensures code { result ≡ code self.now }
        ensures fits { fits self.now };

    /// The value whose word this is. A word that is no value's gives some value.
    fn of_word(word: u64) -> Self
        ensures inverse { (x : Self) → fits x → word ≡ code x → result ≡ x };
}

/// Values that leave a word over, as `Option` needs it.
pub trait Short: Word {
    ghost use Rattle.std.specs.Prelude.{◌<◌, ◌-◌, ◌^◌};

    /// The value's word, which isn't the greatest.
    fn to_short(&self) -> u64
        ensures code { result ≡ Self.code self.now }
        ensures fits { Self.fits self.now }
        ensures short { result < 2 ^ 64 - 1 };
}

impl Word for u64 {
    ghost use Rattle.std.specs.Prelude.{◌<◌, ◌^◌};

    ghost fits = { λ x. x < 2 ^ 64 };

    ghost code = { λ x. x };

    fn to_word(&self) -> u64 {
        *self
    }

    fn of_word(word: u64) -> u64 {
        word
    }
}

impl Word for bool {
    ghost use Rattle.std.specs.Prelude.{if◌then◌else◌};

    ghost code = { λ x. if x then 1 else 0 };

    fn to_word(&self) -> u64 {
        if *self { 1 } else { 0 }
    }

    fn of_word(word: u64) -> bool {
        word != 0
    }
}

impl Word for u8 {
    ghost use Rattle.std.specs.Prelude.{◌<◌, ◌^◌};

    ghost fits = { λ x. x < 2 ^ 8 };

    ghost code = { λ x. x };

    fn to_word(&self) -> u64 {
        u64::from(*self)
    }

    fn of_word(word: u64) -> u8 {
        if word < 256 { word as u8 } else { 0 }
    }
}

impl Word for u16 {
    ghost use Rattle.std.specs.Prelude.{◌<◌, ◌^◌};

    ghost fits = { λ x. x < 2 ^ 16 };

    ghost code = { λ x. x };

    fn to_word(&self) -> u64 {
        u64::from(*self)
    }

    fn of_word(word: u64) -> u16 {
        if word < 65_536 { word as u16 } else { 0 }
    }
}

impl Word for u32 {
    ghost use Rattle.std.specs.Prelude.{◌<◌, ◌^◌};

    ghost fits = { λ x. x < 2 ^ 32 };

    ghost code = { λ x. x };

    fn to_word(&self) -> u64 {
        u64::from(*self)
    }

    fn of_word(word: u64) -> u32 {
        if word < 4_294_967_296 { word as u32 } else { 0 }
    }
}

impl Word for i64 {
    ghost use Rattle.std.specs.Prelude.{FitsSigned};
    ghost use Rattle.std.specs.Int.{w64, cast_unsigned};

    ghost fits = { λ x. FitsSigned w64 x };

    ghost code = { λ x. cast_unsigned w64 x };

    fn to_word(&self) -> u64 {
        self.cast_unsigned()
    }

    fn of_word(word: u64) -> i64 {
        word.cast_signed()
    }
}

impl Word for char {
    ghost use Rattle.std.specs.Char.{IsScalar};

    ghost fits = { λ x. IsScalar x };

    ghost code = { λ x. x };

    fn to_word(&self) -> u64 {
        u64::from(u32::from(*self))
    }

    fn of_word(word: u64) -> char {
        u32::of_word(word).try_into().unwrap_or(' ')
    }
}

impl Short for bool {
    fn to_short(&self) -> u64 {
        self.to_word()
    }
}

impl Short for u8 {
    fn to_short(&self) -> u64 {
        self.to_word()
    }
}

impl Short for u16 {
    fn to_short(&self) -> u64 {
        self.to_word()
    }
}

impl Short for u32 {
    fn to_short(&self) -> u64 {
        self.to_word()
    }
}

impl Short for char {
    fn to_short(&self) -> u64 {
        self.to_word()
    }
}

/// None by 0, and each value by one more than its word.
impl<T: Short> Word for Option<T> {
    ghost use Rattle.std.specs.Prelude.{IfSome};
    ghost use Rattle.data_places.specs.Codes.{option_code};

    ghost fits = { λ o. IfSome o T.fits };

    ghost code = { λ o. option_code T.code o };

    fn to_word(&self) -> u64 {
        match self {
            Some(value) => value.to_short() + 1,
            None => 0,
        }
    }

    fn of_word(word: u64) -> Option<T> {
        if word == 0 {
            None
        } else {
            Some(T::of_word(word - 1))
        }
    }
}
