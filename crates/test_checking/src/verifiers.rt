//! Verifiers over volumes of 17 data blocks and others, and what they serve and refuse.

mod salted_volume;
mod volumes;

pub use salted_volume::{salted, salted_table};
pub use volumes::{
    FIRST, NOWHERE, ROOT_1, ROOT_17, ROOT_32, SECOND, TOP, WIDE_ROOT_17, altered, data_and_tree,
    flip, image, packed, range, refuses, refuses_block, reports, root_17, serves, serves_block,
    store, table, tree,
};
