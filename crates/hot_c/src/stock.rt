//! Stocks of records, as a program in C gives them.

ghost use Rattle.std.specs.Prelude.{◌≡◌};
ghost use Rattle.hot_c.specs.Stocks.{stock_in};

use record_words::Stock;

/// How many node records, and leaf records of each class, an index has. The fields have the order of C's.
#[repr(C)]
#[derive(Clone, Copy)]
pub struct HotStock {
    pub nodes: u32,
    pub short: u32,
    pub medium: u32,
    pub large: u32,
    pub wide: u32,
    pub long: u32,
}

impl HotStock {
    /// Returns the `Stock` with the same numbers.
    pub fn to_stock(&self) -> Stock
        ensures { result ≡ stock_in self.now }
    {
        Stock {
            nodes: self.nodes,
            short: self.short,
            medium: self.medium,
            large: self.large,
            wide: self.wide,
            long: self.long,
        }
    }

    /// Replaces the numbers with those of `stock`.
    pub fn set_counts(&mut self, stock: Stock)
        ensures { stock_in self.new ≡ stock }
    {
        self.nodes = stock.nodes;
        self.short = stock.short;
        self.medium = stock.medium;
        self.large = stock.large;
        self.wide = stock.wide;
        self.long = stock.long;
    }
}
