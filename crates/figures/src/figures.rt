ghost use Rattle.std.specs.Prelude.{◌≡◌, length};
ghost use Rattle.figures.specs.Figures.{EachHolds, figures as bench_figures};

// How many bench figures there are, each of which holds of the definitions themselves.
#[tactic(auto, using(crate::proofs::Rows::each_holds))]
pub fn figures_that_hold() -> usize
    ensures { (EachHolds bench_figures) × (result ≡ length bench_figures) }
{
    figure_count()
}

fn figure_count() -> usize
    ensures { result ≡ length bench_figures }
{
    10
}
