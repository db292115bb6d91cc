//! Data files: the combining classes and the Han ranges of code points, line by line.

mod lines;
mod read;
mod so_far;

pub use read::read_data;
pub use so_far::DataSoFar;
