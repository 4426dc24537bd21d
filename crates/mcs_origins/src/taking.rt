/// At which places a thread holds the origins that a wait gives it.
#[derive(Clone, Copy, Debug, PartialEq, Eq)]
pub enum Taking {
    /// The script's first wait keeps them at their bits, as far as these are among the given ones.
    First(u64),
    /// A later wait puts them at these places.
    Later(u64),
}
