// Sizes of decimals.
ghost use Rattle.std.specs.Prelude.{◌≡◌};
ghost use Rattle.ice_schema.specs.Mapping.{decimal_size, DecimalSizesAreLeast};

/// How many bytes a decimal of 0, 1, 2 and so on digits has.
const SIZES: [u32; 39] = [
    0, 1, 1, 2, 2, 3, 3, 4, 4, 4, 5, 5, 6, 6, 6, 7, 7, 8, 8, 9, 9, 9, 10, 10, 11, 11, 11, 12, 12,
    13, 13, 13, 14, 14, 15, 15, 16, 16, 16,
];

/// How many bytes a decimal of so many digits has.
pub(crate) fn decimal_size(digits: u32) -> u32
    ensures { result ≡ decimal_size digits }
{
    if digits < 39 {
        SIZES[digits as usize]
    } else {
        16
    }
}

/// The size of each decimal of at most 38 digits is the least that holds them.
pub fn decimal_sizes_are_least()
    ensures { DecimalSizesAreLeast }
{}
