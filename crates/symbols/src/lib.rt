// The Reed-Solomon code of the Polish frame: fifteen symbols of four bits, the last six of them check symbols.
// A word is one number, four bits to each symbol, the first highest, since `checks` and `mend` are promised of numbers.
#![tactic(auto)]

ghost use Rattle.big_endian.specs.Digits.{digits};
ghost use Rattle.symbols.specs.Code.{Checked};
ghost use Rattle.symbols.specs.Mending.{Mends};

use wrong_symbols::explain;

// What each bit of the nine symbols asks for, the lowest first, four to a symbol. The code is linear: what the bits ask for adds up.
const ASKED: [u32; 36] = [
    0x79_3cac, 0xe1_6b7b, 0xf2_c5e5, 0xd4_bafa, 0xf9_58f2, 0xd1_a3d4, 0x92_7698, 0x14_ec13,
    0x2b_a7e8, 0x45_7ef3, 0x8a_efd6, 0x37_fd9c, 0x5b_15fb, 0xa5_2ad5, 0x7a_479a, 0xe7_8e17,
    0x3a_a6f9, 0x67_7cd1, 0xce_eb92, 0xbf_f514, 0x32_3847, 0x64_638e, 0xc8_c63f, 0xb3_bc6d,
    0xbb_d3a7, 0x55_967e, 0xaa_1cef, 0x77_2bfd, 0xf1_d75d, 0xd2_9ea9, 0x94_1f71, 0x18_2de2,
    0xa3_5d18, 0x76_a923, 0xec_7146, 0xfb_e28c,
];

// The check symbols of nine symbols in one number: the sum of what their bits ask for.
pub fn checks(symbols: u64) -> u32
    ensures { Checked symbols result }
{
    let mut sum = 0;
    for (place, number) in ASKED.iter().enumerate() {
        if (symbols >> place) % 2 == 1 {
            sum ^= *number;
        }
    }
    sum
}

// The codeword near a word of fifteen symbols, or none.
pub fn mend(word: u64) -> Option<u64>
    ensures { Mends (digits 4 15 word) result }
{
    let received = word % 0x1000_0000_0000_0000;
    let difference = checks(received / 0x100_0000) ^ (received % 0x100_0000) as u32;
    if difference == 0 {
        return Some(received);
    }
    Some(received ^ explain(difference)?)
}
