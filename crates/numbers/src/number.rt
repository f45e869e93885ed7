// Which numbers lie in bytes, and how: the most significant byte first.
#![tactic(auto, using(crate::proofs::BigEndian::conversions))]

ghost use Rattle.std.specs.Prelude.{◌≡◌, ℕ, length};
ghost use Rattle.numbers.specs.Numbers.{be, bytes_of};

// A number that takes the same count of bytes whatever it is. Each type names its own conversions below, since
// `from_be_bytes` and `to_be_bytes` stand in no trait.
pub trait Number: Copy {
    // How many bytes it takes.
    ghost WIDTH: { ℕ };

    // Which number it is.
    ghost value: { Self → ℕ };

    const WIDTH: usize;

    // The number that the bytes stand for.
    fn from_bytes(bytes: &[u8]) -> Self
        requires { length bytes.now ≡ WIDTH }
        ensures { value result ≡ be bytes.now };

    // Fills the bytes with the number.
    fn fill(self, bytes: &mut [u8])
        requires { length bytes.old ≡ WIDTH }
        ensures { bytes.new ≡ bytes_of WIDTH (value self) };
}

impl Number for u16 {
    ghost WIDTH = { 2 };

    ghost value = { λ x. x };

    const WIDTH: usize = 2;

    fn from_bytes(bytes: &[u8]) -> u16 {
        let mut all = [0; 2];
        all.copy_from_slice(bytes);
        u16::from_be_bytes(all)
    }

    fn fill(self, bytes: &mut [u8]) {
        bytes.copy_from_slice(&u16::to_be_bytes(self));
    }
}

impl Number for u32 {
    ghost WIDTH = { 4 };

    ghost value = { λ x. x };

    const WIDTH: usize = 4;

    fn from_bytes(bytes: &[u8]) -> u32 {
        let mut all = [0; 4];
        all.copy_from_slice(bytes);
        u32::from_be_bytes(all)
    }

    fn fill(self, bytes: &mut [u8]) {
        bytes.copy_from_slice(&u32::to_be_bytes(self));
    }
}

impl Number for u64 {
    ghost WIDTH = { 8 };

    ghost value = { λ x. x };

    const WIDTH: usize = 8;

    fn from_bytes(bytes: &[u8]) -> u64 {
        let mut all = [0; 8];
        all.copy_from_slice(bytes);
        u64::from_be_bytes(all)
    }

    fn fill(self, bytes: &mut [u8]) {
        bytes.copy_from_slice(&u64::to_be_bytes(self));
    }
}
