//! That queries and their answers may cross to other threads.
use crate::answer::Answer;
use crate::schema::Schema;
use crate::star_query::StarQuery;

/// A query, an answer and a schema may be sent to another thread, and shared with one.
pub fn queries_cross_threads() {
    crosses_threads::<StarQuery>();
    crosses_threads::<Answer>();
    crosses_threads::<Schema>();
}

fn crosses_threads<T: Send + Sync>() {}
