// Table DF, and the signal speeds, as document 01 has them.

// The bases of table DF, by column BY.
pub const BASES: [u32; 15] = [
    0, 1750, 3500, 5250, 7000, 10500, 14000, 21000, 35000, 49000, 63000, 77000, 91000, 105000, 7500,
];

// The steps of table DF, by column BY.
pub const STEPS: [i32; 15] = [
    125, 125, 125, 125, 250, 250, 500, 1000, 1000, 1000, 1000, 1000, 1000, 1000, -500,
];

// The signal speeds in km/h, by figure.
pub const SPEEDS: [u16; 14] = [0, 40, 50, 60, 70, 80, 90, 100, 130, 160, 190, 220, 270, 0];
