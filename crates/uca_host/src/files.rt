//! Files by their names: opening those of a subcommand in their order, and keeping the file of a certificate only as a
//! whole. Runs are proved over any files that open so (`Opens`), and the program runs over those of the system
//! (`SystemFiles`), which makes a file under another name and renames it.

pub mod keeping;
mod made;
pub mod opening;
pub mod opens;
pub mod system;
