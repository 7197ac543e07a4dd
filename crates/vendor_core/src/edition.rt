ghost use Rattle.std.specs.Prelude.{◌≡◌, ℕ, List, IfOk, length};
ghost use Rattle.mc_records.specs.Entry.{Goods};
ghost use Rattle.house_state.specs.Views.{contents_of};
ghost use Rattle.house_state.specs.Replying.{AreContents};
ghost use Rattle.vendor_core.specs.Editions.{goods_entry, sold_by, IsInRange};
ghost use Rattle.vendor_core.specs.Shelf.{on_sale_by};

use crate::shelf::OnSale;
use house_state::Body;
use mc_base::NoMemory;
use std::alloc::Global;
use std::marker::Model;

/// What a Goods entry puts on sale at its target.
#[derive(Drop)]
pub(crate) struct Article {
    pub(crate) price: u64,
    pub(crate) kind: u8,
    pub(crate) contents: Vec<u8>,
}

impl Article {
    /// A copy of what an entry puts on sale.
    pub(crate) fn copy_of(
        alloc: Global,
        price: u64,
        kind: u8,
        contents: &[u8],
    ) -> Result<Article, NoMemory>
        ensures { IfOk result (λ a. (m : ℕ) (target : List ℕ)
            → goods_entry m target a ≡ Goods m target price kind contents.now) }
    {
        Ok(Article {
            price,
            kind,
            contents: Vec::from_slice(alloc, contents)?,
        })
    }
}

/// An article that a reply may bring. Contracts see it as the article.
#[derive(Drop)]
pub(crate) struct Edition {
    article: Article,
}

impl Model for Edition {
    ghost use Rattle.vendor_core.specs.declared.edition.Article.{Article as ArticleView};
    ghost use Rattle.vendor_core.specs.Editions.{IsInRange};

    ghost Value = { ArticleView };

    ghost view = { λ w. w.article };

    ghost invariant = { λ w. IsInRange w.article };
}

impl Edition {
    /// The edition of an article.
    pub(crate) fn new(article: Article) -> Edition
        requires { IsInRange article }
        ensures { result ≡ article }
    {
        Edition { article }
    }

    /// Its price.
    pub(crate) fn price(&self) -> u64
        ensures { result ≡ self.now.price }
    {
        self.article.price
    }

    /// How many bytes of contents it has.
    pub(crate) fn size(&self) -> u64
        ensures { result ≡ length self.now.contents.items }
    {
        self.article.contents.len() as u64
    }

    /// What a target that sells it sells.
    pub(crate) fn on_sale(&self) -> OnSale
        ensures { result ≡ on_sale_by self.now }
    {
        OnSale {
            price: self.article.price,
            kind: self.article.kind,
            length: self.size(),
        }
    }

    /// What a reply that sold it brings.
    pub(crate) fn body(&self) -> Body<'_>
        ensures range { AreContents result }
        ensures brings { contents_of result ≡ (sold_by self.now).brings }
    {
        Body {
            kind: self.article.kind,
            bytes: &self.article.contents,
        }
    }
}
