// Who edits, where, and with what.

// An operator works on bodies; vertices and links are the setter's.
#[derive(Clone, Copy)]
pub enum Role {
    Setter,
    Operator,
}

// A named record, or an add, which names none.
#[derive(Clone, Copy)]
pub enum Place {
    Record(u32),
    Add,
}

#[derive(Clone, Copy)]
pub struct Edit {
    pub role: Role,
    pub place: Place,
    pub bytes: [u8; 40],
}
