// The widths and limits of search orders, each in one place.

// A number that an order picks, from 1; 0 stands for none.
pub type Number = u8;

// A party, which is one task of the control unit, from 1.
pub type Party = u8;

pub const PARTIES: usize = 15;

// An order is made for the numbers 1 to m, m being at most this.
pub const LARGEST_SIZE: u32 = 255;

pub const LONGEST_STRIDE: u32 = 255;
