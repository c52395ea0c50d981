/// Where keys lie beside a range.
#[derive(Clone, Copy, Debug, PartialEq, Eq)]
pub enum Place {
    /// All of them are below its start.
    Before,
    /// All of them are in it.
    Inside,
    /// All of them are above its end.
    After,
    /// None of these: some lie in one place, and others in another.
    Straddles,
}
