// The ten functions: pattern in, pattern out.
ghost use Rattle.rows.specs.Rows.{Meets};
ghost use Rattle.exponential.specs.Exp as Exp;
ghost use Rattle.exponential.specs.Exp2 as Exp2;
ghost use Rattle.logarithm.specs.Ln as Ln;
ghost use Rattle.logarithm.specs.Log2 as Log2;
ghost use Rattle.circular.specs.SinPi as SinPi;
ghost use Rattle.circular.specs.CosPi as CosPi;
ghost use Rattle.circular.specs.TanPi as TanPi;
ghost use Rattle.arc.specs.AtanPi as AtanPi;
ghost use Rattle.arc.specs.AsinPi as AsinPi;
ghost use Rattle.arc.specs.AcosPi as AcosPi;

#[unsafe(no_mangle)]
pub extern "C" fn balehasp_exp(p: u16) -> u16
    ensures { Meets (Exp.row p) result }
{
    exponential::exp(p)
}

#[unsafe(no_mangle)]
pub extern "C" fn balehasp_exp2(p: u16) -> u16
    ensures { Meets (Exp2.row p) result }
{
    exponential::exp2(p)
}

#[unsafe(no_mangle)]
pub extern "C" fn balehasp_ln(p: u16) -> u16
    ensures { Meets (Ln.row p) result }
{
    logarithm::ln(p)
}

#[unsafe(no_mangle)]
pub extern "C" fn balehasp_log2(p: u16) -> u16
    ensures { Meets (Log2.row p) result }
{
    logarithm::log2(p)
}

#[unsafe(no_mangle)]
pub extern "C" fn balehasp_sin_pi(p: u16) -> u16
    ensures { Meets (SinPi.row p) result }
{
    circular::sin_pi(p)
}

#[unsafe(no_mangle)]
pub extern "C" fn balehasp_cos_pi(p: u16) -> u16
    ensures { Meets (CosPi.row p) result }
{
    circular::cos_pi(p)
}

#[unsafe(no_mangle)]
pub extern "C" fn balehasp_tan_pi(p: u16) -> u16
    ensures { Meets (TanPi.row p) result }
{
    circular::tan_pi(p)
}

#[unsafe(no_mangle)]
pub extern "C" fn balehasp_atan_pi(p: u16) -> u16
    ensures { Meets (AtanPi.row p) result }
{
    arc::atan_pi(p)
}

#[unsafe(no_mangle)]
pub extern "C" fn balehasp_asin_pi(p: u16) -> u16
    ensures { Meets (AsinPi.row p) result }
{
    arc::asin_pi(p)
}

#[unsafe(no_mangle)]
pub extern "C" fn balehasp_acos_pi(p: u16) -> u16
    ensures { Meets (AcosPi.row p) result }
{
    arc::acos_pi(p)
}
