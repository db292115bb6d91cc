//! Tests of the crates that read and write files: streams and lines, the parts of lines, the values of files,
//! data files, table files, and the check of tables. Books and their images, certificates, maps of weights, and keys that
//! certificates move are here too. Audits and plans are tested with the built program, in `tests/test_audits.py`.
#![tactic(auto)]

#[cfg(test)]
mod any_lines;
#[cfg(test)]
mod book_images;
#[cfg(test)]
mod book_streams;
#[cfg(test)]
mod books;
#[cfg(test)]
mod certificates;
#[cfg(test)]
mod data_files;
#[cfg(test)]
mod fields;
#[cfg(test)]
mod lines;
#[cfg(test)]
mod maps;
#[cfg(test)]
mod moved_keys;
#[cfg(test)]
mod outputs;
#[cfg(test)]
mod streams;
#[cfg(test)]
mod table_files;
#[cfg(test)]
mod values;
#[cfg(test)]
mod well_formed;
