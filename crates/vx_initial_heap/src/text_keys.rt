//! The key of the hashes by which texts of a program are found.

use std::hash::{DefaultHasher, Hasher};
use vx_link::LinkedClass;
use vx_list::Keyed;
use vx_pool::{Entry, Pool};

fn read_pool(read: &mut DefaultHasher, pool: &Pool) {
    for entry in pool.entries.as_slice() {
        if let Entry::Utf8(text) = entry {
            read.write(text.as_slice());
        }
    }
}

/// A key that is made of all texts in the pools of classes.
pub(crate) fn key_of(classes: &[LinkedClass]) -> Keyed {
    let mut read = DefaultHasher::new();
    for class in classes {
        read_pool(&mut read, &class.pool);
    }
    Keyed::after(&read)
}
