// What is known of the bytes of texels.
ghost use Rattle.fix_math.specs.Bytes.{IsTexel, AreTexels};

/// Does nothing. It tells that a texel is four bytes.
fn tell_texel(texel: [u8; 4])
    ensures { IsTexel texel }
{
    let [_red, _green, _blue, _alpha] = texel;
}

/// Does nothing, and the compiled program leaves it out. It tells that each texel is four bytes.
pub fn tell_texels(texels: &[[u8; 4]])
    ensures { AreTexels texels.now }
{
    for i in 0..texels.len() {
        tell_texel(texels[i]);
    }
}
