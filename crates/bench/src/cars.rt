//! Car sales, the benchmark that Cap'n Proto comes with: the parts of a car, and the places of its
//! fields.
//!
//! A car has three data words and four pointers, to its make, its model, its wheels and its engine;
//! a wheel and an engine have a data word each. Numbers of the data section are counted in units of
//! their own width, and truth values in bits.
use capnp_layout::StructSize;

/// A parking lot, whose one pointer leads to its cars.
pub const LOT: StructSize = StructSize {
    data_words: 0,
    pointers: 1,
};

/// A car.
pub const CAR: StructSize = StructSize {
    data_words: 3,
    pointers: 4,
};

/// A wheel or an engine.
pub const PART: StructSize = StructSize {
    data_words: 1,
    pointers: 0,
};

/// The number of wheels of a car.
pub const WHEELS: u32 = 4;

/// The pointers of a car.
pub const MAKE: usize = 0;

pub const MODEL: usize = 1;

pub const CAR_WHEELS: usize = 2;

pub const ENGINE: usize = 3;

/// The makes.
const MAKES: [&str; 5] = ["Toyota", "GM", "Ford", "Honda", "Tesla"];

/// The models.
const MODELS: [&str; 7] = [
    "Camry", "Prius", "Volt", "Accord", "Leaf", "Model S", "Fiesta",
];

/// Returns the make of a car, by its number.
pub fn make_of(car: u32) -> &'static str {
    MAKES[(car % 5) as usize]
}

/// Returns the model of a car, by its number.
pub fn model_of(car: u32) -> &'static str {
    MODELS[(car % 7) as usize]
}
