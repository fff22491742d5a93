// Where a run stands, as plain numbers: what its next term is made from.

#[derive(Clone, Copy, Debug)]
pub struct DirectPlace {
    // the point of the next term
    pub point: u32,
    // the weight of the term before it, or 1
    pub weight: u32,
}

#[derive(Clone, Copy, Debug)]
pub struct DoublingPlace {
    pub row_length: u32,
    // of the next term in its row
    pub place: u32,
    // of the first term of the row
    pub row_point: u32,
    pub row_weight: u32,
    // of the next term
    pub point: u32,
    pub weight: u32,
}

#[derive(Clone, Copy, Debug)]
pub enum Progress {
    Direct(DirectPlace),
    Doubling(DoublingPlace),
}
