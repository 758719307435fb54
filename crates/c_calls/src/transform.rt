// Transforms as C has them.

/// Three rows of four numbers of 1/65536; the fourth number of a row is added to the sum.
#[repr(C)]
#[derive(Clone, Copy, Drop)]
pub struct Transform {
    pub m: [i32; 12],
}
