// What a call answers.

/// What a call answers beside the bytes: the status, and how long the output and the line of complaint are in all.
#[derive(Clone, Copy)]
pub struct CallAnswer {
    /// The status of the call.
    pub status: u8,
    /// How many bytes the output has, also where the room has fewer.
    pub output: usize,
    /// How many bytes the line of complaint has, also where the room has fewer.
    pub complaint: usize,
}
