// Nets as tables: definitions in specs/, and the tables that a caller lends. No function.
#![tactic(auto)]

// A net as it is drawn: three coordinates for each vertex, the corners face by face, the faces' side counts, none where all have four, and a mark for each vertex.
#[derive(Clone, Copy)]
pub struct Net<'a> {
    pub vertices: &'a [i32],
    pub faces: &'a [u32],
    pub sides: &'a [u8],
    pub marks: &'a [u8],
}
