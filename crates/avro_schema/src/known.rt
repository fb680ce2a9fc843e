use crate::schema::Schema;

/// What is known of the type that a name stands for.
#[derive(Drop)]
pub enum Known {
    /// Its definition has begun, and has not ended.
    Open,
    Defined(Schema),
}
