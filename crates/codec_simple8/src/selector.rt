ghost use Rattle.std.specs.Prelude.{◌≡◌, ◌-◌, ◌%◌, ◌<◌, ◌≤◌, ◌^◌, replicate};
ghost use Rattle.std.specs.Simd.Lanes.{number_l};
ghost use Rattle.codec_simple8.specs.Simple8.{count_of, width_of};

/// How many gaps a word of each selector has.
const COUNTS: [u32; 16] = [240, 120, 60, 30, 20, 15, 12, 10, 8, 7, 6, 5, 4, 3, 2, 1];

/// How many bits each of them has.
const WIDTHS: [u32; 16] = [0, 0, 1, 2, 3, 4, 5, 6, 7, 8, 10, 12, 15, 20, 30, 60];

/// The lowest bit of each gap of a word of each selector, as far as its gaps have bits.
const LOWEST: [u64; 16] = [
    0,
    0,
    0x0fff_ffff_ffff_ffff,
    0x0555_5555_5555_5555,
    0x0249_2492_4924_9249,
    0x0111_1111_1111_1111,
    0x0084_2108_4210_8421,
    0x0041_0410_4104_1041,
    0x0002_0408_1020_4081,
    0x0001_0101_0101_0101,
    0x0004_0100_4010_0401,
    0x0001_0010_0100_1001,
    0x0000_2000_4000_8001,
    0x0000_0100_0010_0001,
    0x0000_0000_4000_0001,
    0x0000_0000_0000_0001,
];

/// The bits of each gap of a word of each selector that a gap of the selector before has no room for.
const WIDER: [u64; 16] = [
    0,
    0,
    0x0fff_ffff_ffff_ffff,
    0x0aaa_aaaa_aaaa_aaaa,
    0x0924_9249_2492_4924,
    0x0888_8888_8888_8888,
    0x0842_1084_2108_4210,
    0x0820_8208_2082_0820,
    0x0081_0204_0810_2040,
    0x0080_8080_8080_8080,
    0x0c03_00c0_300c_0300,
    0x0c00_c00c_00c0_0c00,
    0x0e00_1c00_3800_7000,
    0x0f80_00f8_000f_8000,
    0x0ffc_0000_3ff0_0000,
    0x0fff_ffff_c000_0000,
];

/// The selector of a word: which of the 16 layouts it has.
#[derive(Clone, Copy)]
pub(crate) struct Selector {
    pub number: usize,
    pub ghost few: { number < 16 },
}

impl Selector {
    /// The selector that a word has.
    #[inline(always)]
    pub fn of(word: u64) -> Selector
        ensures { result.number ≡ word % 16 }
    {
        Selector {
            number: (word % 16) as usize,
        }
    }

    /// How many gaps its words have.
    #[inline(always)]
    pub fn count(self) -> usize
        ensures { result ≡ count_of self.number }
    {
        COUNTS[self.number] as usize
    }

    /// How many bits each of these gaps has.
    #[inline(always)]
    pub fn width(self) -> u32
        ensures { result ≡ width_of self.number }
    {
        WIDTHS[self.number]
    }

    /// The lowest bit of each of these gaps.
    #[inline(always)]
    pub fn lowest(self) -> u64
        requires { 2 ≤ self.number }
        ensures { result ≡ number_l (2 ^ width_of self.number) (replicate (count_of self.number) 1) }
    {
        LOWEST[self.number]
    }

    /// The bits of these gaps that a gap of the selector before has no room for.
    #[inline(always)]
    pub fn wider(self) -> u64
        ensures { result ≡ number_l (2 ^ width_of self.number)
            (replicate (count_of self.number) (2 ^ width_of self.number - 2 ^ width_of (self.number - 1))) }
    {
        WIDER[self.number]
    }

    /// The selector before this one: its words have more gaps, none of them wider.
    #[inline(always)]
    pub fn before(self) -> Selector
        requires { 0 < self.number }
        ensures { result.number ≡ self.number - 1 }
    {
        Selector {
            number: self.number - 1,
        }
    }
}
