// Sets, all calls of each.
ghost use Rattle.std.specs.Prelude.{◌≡◌, length};
ghost use Rattle.set_core.specs.Shapes.{dimension_of};

use ratio_core::Ratio;
use set_core::Set;
use test_support::Page;

/// The numbers from -1 to 1, cones of three numbers, a cone that is too small, and the numbers up
/// to the greatest.
pub fn show(page: &mut Page) {
    page.line("# sets");
    let (lower, upper) = (Ratio::one().neg(), Ratio::one());
    let interval = Set::Interval { lower, upper };
    show_shape(page, &interval);
    show_with(page, &interval, &[upper]);
    show_with(page, &interval, &[lower]);
    show_cone(page, &Set::Zeros { dimension: 3 });
    show_cone(page, &Set::NormInfinityCone { dimension: 3 });
    show_cone(page, &Set::NormOneCone { dimension: 3 });
    show_shape(page, &Set::NormOneCone { dimension: 1 });
    if let (Ok(upper), Ok(two)) = (Ratio::new(i128::MAX, 1), Ratio::new(2, 1)) {
        show_with(page, &Set::LessThan { upper }, &[two]);
    }
}

fn show_shape(page: &mut Page, set: &Set) {
    page.word(format_args!("{:?}, ", set.copy(page.alloc())));
    page.line(format_args!("for 2 components {:?}", set.resized(page.alloc(), 2)));
    show_type(page, set);
    show_bounds(page, set);
}

fn show_type(page: &mut Page, set: &Set) {
    page.word(format_args!("    {:?} of {}, ", set.set_type(), set.dimension()));
    let (is_scalar, is_norm_cone) = (set.is_scalar(), set.is_norm_cone());
    page.line(format_args!("scalar {is_scalar}, norm cone {is_norm_cone}"));
    let is_zeros = set.has_type_of(&Set::Zeros { dimension: 2 });
    let is_bad = set.has_bad_dimension(1);
    page.line(format_args!("    type of zeros {is_zeros}, bad for 1 component {is_bad}"));
}

fn show_bounds(page: &mut Page, set: &Set) {
    let (lower, upper) = (set.lower_bound(), set.upper_bound());
    page.line(format_args!(
        "    from {lower:?} to {upper:?}, crossed {}",
        set.is_crossed()
    ));
}

fn show_cone(page: &mut Page, cone: &Set)
    requires { dimension_of cone.now ≡ 3 }
{
    show_shape(page, cone);
    let one = Ratio::one();
    show_with(page, cone, &[one, one.neg(), one]);
}

fn show_with(page: &mut Page, set: &Set, vector: &[Ratio])
    requires { length vector.now ≡ dimension_of set.now }
{
    let (holds, dual) = (set.holds(vector), set.dual_holds(vector));
    page.line(format_args!("    {vector:?}: in the set {holds:?}, in the dual {dual:?}"));
    let (recession, low) = (set.recession_holds(vector), set.low(vector));
    page.line(format_args!("        in the recession set {recession:?}, least product {low:?}"));
}
