//! That what a table and a reply are made of may cross to other threads.
use crate::byte_text::ByteText;
use crate::cell::Cell;
use crate::literal_list::LiteralList;
use crate::row::Row;
use crate::small_text::SmallText;
use crate::value::Value;

/// Each type that holds values or bytes may be sent to another thread, and shared with one.
pub fn values_cross_threads() {
    crosses_threads::<SmallText>();
    crosses_threads::<Value>();
    crosses_threads::<Row>();
    crosses_threads::<Cell>();
    crosses_threads::<LiteralList>();
    crosses_threads::<ByteText>();
}

fn crosses_threads<T: Send + Sync>() {}
